// What is known once a walk has come to the end.
ghost use Rattle.walk.specs.Settled.{Settled};

use numbers::Loan;

// A loan whose holes keep every rule.
#[derive(Clone, Copy)]
pub struct Sound<'a> {
    pub loan: Loan<'a>,
    ghost settled: { Settled loan.heap loan.arena.now },
}
