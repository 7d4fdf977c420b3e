//! Symbols, each once.
ghost use Rattle.std.specs.Prelude.{◌≡◌, ◌<◌, ◌==◌, [], ℕ, false, length, All, IfOk, OnOk};
ghost use Rattle.std.specs.List.{list_any, slice_index_or};
ghost use Rattle.kmin_explain.specs.Names.{with_number, each_once_after};
ghost use Rattle.kmin_explain.specs.checker.Marks.{AreMarked};

use kc_tree::Sym;
use std::alloc::{AllocError, Global};

/// Symbols, each once, in order of first sight.
#[derive(Drop)]
pub struct SymbolsOnce {
    pub found: Vec<Sym>,
    pub is_found: Vec<bool>,
}

impl SymbolsOnce {
    /// No symbols, of a tree that has `count` of them.
    pub fn new(alloc: Global, count: u32) -> Result<SymbolsOnce, AllocError>
        ensures none { IfOk result (λ o. o.found.items ≡ []) }
        ensures marks { IfOk result AreMarked }
        ensures many { IfOk result (λ o. length o.is_found.items ≡ count) }
    {
        let is_found = vec![in alloc; false; count as usize]?;
        Ok(SymbolsOnce {
            found: Vec::new(alloc),
            is_found,
        })
    }

    /// Adds a symbol, if it isn't there yet. An `Err` means out of memory.
    pub fn add(&mut self, s: Sym) -> Result<(), AllocError>
        requires marks { AreMarked self.old }
        requires there { s < length self.old.is_found.items }
        ensures found { OnOk result (self.new.found.items ≡ with_number self.old.found.items s) }
        ensures marks { OnOk result (AreMarked self.new) }
        ensures many { OnOk result (length self.new.is_found.items ≡ length self.old.is_found.items) }
    {
        let at = s.number() as usize;
        if self.is_found[at] {
            return Ok(());
        }
        self.found.push(s)?;
        self.is_found[at] = true;
        Ok(())
    }

    /// Adds symbols, of which each isn't there yet once. An `Err` means out of memory.
    pub fn add_all(&mut self, symbols: &[Sym]) -> Result<(), AllocError>
        requires marks { AreMarked self.old }
        requires there { All (λ s. s < length self.old.is_found.items) symbols.now }
        ensures found { OnOk result (self.new.found.items ≡ each_once_after self.old.found.items symbols.now) }
        ensures marks { OnOk result (AreMarked self.new) }
        ensures many { OnOk result (length self.new.is_found.items ≡ length self.old.is_found.items) }
    {
        for s in symbols {
            self.add(*s)?;
        }
        Ok(())
    }

    /// These symbols, of a tree that has `count` of them. An `Err` means out of memory.
    pub fn of(alloc: Global, count: u32, symbols: &[Sym]) -> Result<SymbolsOnce, AllocError>
        requires there { All (λ s. s < count) symbols.now }
        ensures marks { IfOk result (λ once. (s : ℕ) → s < count → slice_index_or once.is_found.items s false ≡ list_any (λ m. m == s) symbols.now) }
        ensures many { IfOk result (λ once. length once.is_found.items ≡ count) }
    {
        let mut once = SymbolsOnce::new(alloc, count)?;
        once.add_all(symbols)?;
        Ok(once)
    }

    /// Whether the symbol with a number is among them.
    pub fn has(&self, s: u32) -> bool
        requires there { s < length self.now.is_found.items }
        ensures { result ≡ slice_index_or self.now.is_found.items s false }
    {
        self.is_found[s as usize]
    }
}
