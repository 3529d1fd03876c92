#![tactic(auto)]

ghost use Rattle.std.specs.Prelude.{◌≡◌, [], ◌∷◌, replicate};
ghost use Rattle.budget.specs.Charges.{paid, spent};
ghost use Rattle.budget.specs.Laws.{ChargeLaws};

// The total that a refused charge came to, with the limit that it passed.
#[derive(Clone, Copy, PartialEq, Eq, Debug)]
pub struct WorkFault {
    pub work: usize,
    pub limit: usize,
}

// Work done so far, and how much may be done.
#[derive(Clone, Copy, PartialEq, Eq, Debug)]
pub struct WorkBudget {
    pub total: usize,
    pub limit: usize,
}

impl WorkBudget {
    // Adds `k` to the total, which stops at the largest number; refused where it is then above the limit.
    #[tactic(auto, using(crate::proofs::ChargeLaws::charge_laws))]
    pub fn charge(&mut self, k: usize) -> Result<(), WorkFault>
        ensures says { result ≡ paid self.old (k ∷ []) tt }
        ensures work { self.new ≡ spent self.old (k ∷ []) }
        ensures laws { ChargeLaws }
    {
        let current = self.total;
        let work = current.saturating_add(k);
        self.total = work;
        if work > self.limit {
            return Err(WorkFault {
                work,
                limit: self.limit,
            });
        }
        Ok(())
    }

    // Charges one, `count` times: in one step where none of them is refused, else up to the first that is.
    #[tactic(auto, using(crate::proofs::OnesLaws::ones_taken, crate::proofs::OnesLaws::ones_over))]
    pub fn charge_ones(&mut self, count: usize) -> Result<(), WorkFault>
        ensures says { result ≡ paid self.old (replicate count 1) tt }
        ensures work { self.new ≡ spent self.old (replicate count 1) }
    {
        let limit = self.limit;
        let total = self.total.saturating_add(count);
        if count == 0 || total <= limit {
            self.total = total;
            return Ok(());
        }
        let refused = self.total.max(limit).saturating_add(1);
        self.total = refused;
        Err(WorkFault {
            work: refused,
            limit,
        })
    }
}
