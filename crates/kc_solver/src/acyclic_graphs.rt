//! Graphs without a cycle.
ghost use Rattle.kc_solver.specs.Dependencies.{AcyclicGraphsHaveOrders};

/// The law that every graph without a cycle has an order of dependency. The function does nothing: its contract is the law.
pub fn acyclic_graphs_have_orders()
    ensures { AcyclicGraphsHaveOrders }
{}
