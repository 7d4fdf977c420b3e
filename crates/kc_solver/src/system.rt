//! Graphs and systems: units, their dependencies, and a rule for each.
ghost use Rattle.std.specs.Prelude.{◌≡◌, ℕ, ◌+◌, ◌-◌, ◌^◌, ◌<◌, ◌≤◌, ◌↔◌, Bool, List, [], ◌∷◌, Option, min, IsTrue, IfOk, IfSome, OnOk};
ghost use Rattle.std.specs.Io.KnownBytes.{Appends};
ghost use Rattle.std.specs.Option.{option_copied};
ghost use Rattle.kc_solver.specs.Dependencies.{IsGraph};
ghost use Rattle.kc_solver.specs.Solutions.{KeepsFrame, Restores, FitsValues};

use std::alloc::{AllocError, Global};

/// A graph of units, numbered from 0, with their dependencies on each other.
pub trait Graph {
    /// How many units there are, for contracts.
    ghost size: { Self → ℕ };

    /// The units that a unit depends on, for contracts.
    ghost dependencies: { Self → ℕ → List ℕ };

    /// How many units there are; they are numbered from 0.
    fn len(&self) -> u32
        ensures { result ≡ size self.now };

    /// The units that `u` depends on, ascending, each once. The caller owes a unit.
    fn deps(&self, u: u32) -> &[u32]
        requires there { u < size self.now }
        ensures value { result.now ≡ dependencies self.now u };

    /// Law: dependencies ascend without repeats, and are units.
    ghost graph: { (g : Self) → IsGraph (size g) (dependencies g) };
}

/// A graph of units, each with a rule that gives its value from its optional user value and the values of all units.
pub trait System: Graph {
    type Value: Drop;

    type User: Drop;

    type Meter;

    /// The value of a unit, from its optional user value and the values of all units.
    ghost rule: { Self → ℕ → Option Self.User → List Self.Value → Self.Value };

    /// The values that a unit may have.
    ghost fits_value: { Self → ℕ → Self.Value → Type 0 };

    /// The user values that a unit may be given.
    ghost fits_user: { Self → ℕ → Self.User → Type 0 };

    /// A value as a user value, where it can be one; for contracts.
    ghost as_user: { Self → Self.Value → Option Self.User };

    /// Equality of values as a test, for contracts; with a law on its result, since lemmas need to decide it.
    ghost same_value: { Self.Value → Self.Value → Bool };

    /// Equality of user values as a test, for contracts.
    ghost same_user_value: { Self.User → Self.User → Bool };

    /// How many steps a meter has counted, for contracts.
    ghost count: { Self.Meter → ℕ };

    /// The units that a meter has recorded as evaluated, in their order, or `None` if it records none, as the program's; for contracts.
    ghost recorded: { Self.Meter → Option (List ℕ) };

    /// The unit's value by its rule, or out of memory. This is one step of the meter (to 2^64 - 1 at most), also
    /// where memory runs out. The caller owes a unit, a fitting user value or none, and a fitting value for each
    /// unit.
    fn eval(
        &self,
        alloc: Global,
        u: u32,
        user: Option<&Self::User>,
        values: &[Self::Value],
        meter: &mut Self::Meter,
    ) -> Result<Self::Value, AllocError>
        requires unit { u < Self.size self.now }
        requires user { IfSome (option_copied user) (fits_user self.now u) }
        requires values { FitsValues (Self.size self.now) (fits_value self.now) values.now }
        ensures value { IfOk result (λ value. value ≡ rule self.now u (option_copied user.entry) values.now) }
        ensures fits { IfOk result (fits_value self.now u) }
        ensures step { count meter.new ≡ min (count meter.old + 1) u64.MAX }
        ensures records { OnOk result (Appends (recorded meter.old) (recorded meter.new) (u ∷ [])) };

    /// Some value that fits the unit, until its own is found; or out of memory.
    fn blank(&self, alloc: Global, u: u32) -> Result<Self::Value, AllocError>
        requires there { u < Self.size self.now }
        ensures ok { IfOk result (fits_value self.now u) };

    /// A copy of a value, or out of memory.
    fn copy_value(alloc: Global, value: &Self::Value) -> Result<Self::Value, AllocError>
        ensures { IfOk result (λ copy. copy ≡ value.now) };

    /// A copy of a user value, or out of memory.
    fn copy_user(alloc: Global, user: &Self::User) -> Result<Self::User, AllocError>
        ensures { IfOk result (λ copy. copy ≡ user.now) };

    /// Whether two values are equal.
    fn same(a: &Self::Value, b: &Self::Value) -> bool
        ensures { result ≡ same_value a.now b.now };

    /// Whether two user values are equal.
    fn same_user(a: &Self::User, b: &Self::User) -> bool
        ensures { result ≡ same_user_value a.now b.now };

    /// Law: `same_value` holds for equal values and no others.
    ghost equal_values: { (a b : Self.Value) → IsTrue (same_value a b) ↔ (a ≡ b) };

    /// Law: `same_user_value` holds for equal user values and no others.
    ghost equal_users: { (a b : Self.User) → IsTrue (same_user_value a b) ↔ (a ≡ b) };

    /// Law: a meter counts to 2^64 - 1 at most.
    ghost counts: { (m : Self.Meter) → count m ≤ 2 ^ 64 - 1 };

    /// Frame law: values that agree on a unit's dependencies give it the same value.
    ghost frame: { (s : Self) → KeepsFrame (Self.size s) (Self.dependencies s) (rule s) (fits_user s) };

    /// Restore law: a value that a unit wouldn't have without its user value comes out again if it is the user value itself.
    ghost restore: { (s : Self) → Restores (Self.size s) (rule s) (as_user s) (fits_user s) };
}
