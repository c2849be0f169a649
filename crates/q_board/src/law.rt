//! What the rule says of each job.
ghost use Rattle.std.specs.Prelude.{◌≡◌, ℕ};
ghost use mathlib.Core.Option.{some};
ghost use lib.ListN.{get_elem?};
ghost use Rattle.atomic_table.specs.Table.{State};
ghost use Rattle.q_board.specs.Rule.{Orderly};
ghost use Rattle.q_board.specs.Account.{Accounts, HoldsOwn};
ghost use Rattle.q_board.specs.Sums.{Adds};
ghost use Rattle.q_board.specs.declared.cell.Content.{Content};
ghost use Rattle.q_board.specs.declared.view.Holder.{Holder};
ghost use Rattle.q_board.specs.declared.view.Asking.{Asking};
ghost use Rattle.q_board.specs.declared.view.Running.{Running};
ghost use Rattle.q_board.specs.declared.view.Holder.TheVariants.{Asker, Runner};

/// Between any two steps each asker's jobs are all accounted for, and each claim is with the runner that the word
/// names: what an asker offered is, as multisets, what it received, what lies in its slots and what runners hold of
/// them.
pub fn accounted()
    ensures askers { (lanes : ℕ) (s : State Content Holder) → Orderly lanes s → (id : ℕ) (a : Asking) → get_elem? s.views id ≡ some (Asker a) → Accounts s a }
    ensures adds { (lanes : ℕ) (s : State Content Holder) → Orderly lanes s → (id : ℕ) (a : Asking) → get_elem? s.views id ≡ some (Asker a) → Adds s a }
    ensures runners { (lanes : ℕ) (s : State Content Holder) → Orderly lanes s → (id : ℕ) (v : Running) → get_elem? s.views id ≡ some (Runner v) → HoldsOwn s id v }
{}
