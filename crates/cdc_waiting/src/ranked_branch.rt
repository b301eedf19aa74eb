//! Committed branches in the order in which they wait.

ghost use Rattle.std.proofs.Common.{◌≡◌, refl};
ghost use Rattle.std.specs.Ordering.{on, eq_by_cmp, as_partial_cmp};
ghost use Rattle.std.specs.Cmp.{on_total, eq_by_cmp_equiv, partial_equiv_from_equiv, partial_order_from_total};
ghost use Rattle.cdc_waiting.specs.Waiting.{wait_order, wait_order_total};

use cdc_base::key_cmp;
use cdc_model::Branch;
use std::cmp::Ordering;

/// A committed branch, compared by its key, and under one key by the number of the entry that committed it.
#[derive(Debug, Drop)]
pub struct RankedBranch {
    pub branch: Branch,
}

// The order in which branches wait.
fn wait_cmp(a: &Branch, b: &Branch) -> Ordering
    ensures { result ≡ wait_order a.now b.now }
{
    key_cmp(&a.key, &b.key).then(a.entry.cmp(&b.entry))
}

impl PartialEq for RankedBranch {
    ghost eq = { eq_by_cmp (on (λ r. r.branch) wait_order) };

    ghost laws = { partial_equiv_from_equiv (eq_by_cmp_equiv (on_total (λ r. r.branch) wait_order_total)) };

    fn eq(&self, other: &RankedBranch) -> bool {
        wait_cmp(&self.branch, &other.branch).is_eq()
    }
}

impl Eq for RankedBranch {
    ghost laws = { eq_by_cmp_equiv (on_total (λ r. r.branch) wait_order_total) };
}

impl Ord for RankedBranch {
    ghost cmp = { on (λ r. r.branch) wait_order };

    ghost total = { on_total (λ r. r.branch) wait_order_total };

    ghost matches_partial_cmp = { λ x y. refl };

    ghost matches_eq = { λ x y. refl };

    fn cmp(&self, other: &RankedBranch) -> Ordering {
        wait_cmp(&self.branch, &other.branch)
    }
}

impl PartialOrd for RankedBranch {
    ghost partial_cmp = { as_partial_cmp (on (λ r. r.branch) wait_order) };

    ghost laws = { partial_order_from_total (on_total (λ r. r.branch) wait_order_total) };

    fn partial_cmp(&self, other: &RankedBranch) -> Option<Ordering> {
        Some(self.cmp(other))
    }
}
