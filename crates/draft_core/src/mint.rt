ghost use Rattle.std.specs.Prelude.{◌≡◌, ◌+◌, ◌<◌, ◌^◌};

use std::marker::Model;

/// Gives numbers to scopes, each once.
///
/// A contract sees it as the number of tickets that were taken.
#[derive(Drop)]
pub struct ScopeMint {
    taken: u64,
}

impl Model for ScopeMint {
    ghost use Rattle.std.specs.Prelude.{ℕ};

    ghost Value = { ℕ };

    ghost view = { λ m. m.taken };
}

/// The number of a scope that is to be begun.
///
/// A contract sees it as the number.
#[derive(Drop)]
pub struct ScopeTicket {
    number: u64,
}

impl Model for ScopeTicket {
    ghost use Rattle.std.specs.Prelude.{ℕ};

    ghost Value = { ℕ };

    ghost view = { λ t. t.number };
}

impl ScopeMint {
    /// A mint of which no ticket was taken.
    pub fn new() -> ScopeMint
        ensures { result ≡ 0 }
    {
        ScopeMint { taken: 0 }
    }

    /// The next ticket. Its number is how many were taken before, so no two tickets of one mint have one number.
    pub fn take(&mut self) -> ScopeTicket
        requires { self.old < 2 ^ 63 }
        ensures number { result ≡ self.old }
        ensures taken { self.new ≡ self.old + 1 }
    {
        let number = self.taken;
        self.taken = number + 1;
        ScopeTicket { number }
    }
}

impl ScopeTicket {
    /// The number of the scope that is begun with the ticket.
    pub fn number(&self) -> u64
        ensures { result ≡ self.now }
    {
        self.number
    }
}
