//! Worked values of the counts of failed calls, and of where nodes are.

ghost use Rattle.std.specs.Prelude.{◌≡◌, ℕ, [], ◌∷◌, ◌++◌, Some, None, Ok, Err};
ghost use Rattle.std.specs.Io.KnownBytes.{Appends, Consumes};
ghost use Rattle.std.specs.declared.net.socket_addr.SocketAddr.{SocketAddr};
ghost use Rattle.q_outside.specs.Counts.{count_after, one_fewer, one_more, transport_count, write_count};
ghost use Rattle.q_outside.specs.Peers.{HasMailbox, address_of};
ghost use Rattle.q_outside.specs.declared.fault.TransportFault.TheVariants as fault;

/// What the definitions say at telling operands.
pub fn worked()
    // A failed call counts one, up to the greatest value, and one that succeeds counts nothing.
    ensures one_more { one_more 1 ≡ 2 }
    ensures most { one_more 18446744073709551615 ≡ 18446744073709551615 }
    ensures succeeded { count_after {A = ℕ} {E = ℕ} (Ok 0) 7 ≡ 7 }
    ensures failed { count_after {A = ℕ} {E = ℕ} (Err 0) 7 ≡ 8 }
    ensures empty_piece { write_count {E = ℕ} (Ok 0) 0 7 ≡ 7 }
    ensures took_none { write_count {E = ℕ} (Ok 0) 1 7 ≡ 8 }
    ensures took_some { write_count {E = ℕ} (Ok 1) 2 7 ≡ 7 }
    ensures write_failed { write_count {E = ℕ} (Err 0) 0 7 ≡ 8 }
    ensures sent { transport_count {A = ℕ} (Ok 0) 7 ≡ 7 }
    ensures not_sent { transport_count {A = ℕ} (Err fault.Failed) 1 ≡ 2 }
    ensures without_memory { transport_count {A = ℕ} (Err fault.OutOfMemory) 7 ≡ 7 }

    // The call that is to fail comes one nearer, and none is left once it was it.
    ensures nearer { one_fewer 3 ≡ 2 }
    ensures reached { one_fewer 1 ≡ 0 }
    ensures none_is_to_fail { one_fewer 0 ≡ 0 }

    // What was read is told, and all of a piece is written.
    ensures read_is_told { Consumes (Some (1 ∷ [])) (Some []) [] → ⊥ }
    ensures all_is_written { Appends (Some []) (Some (1 ∷ [])) (1 ∷ 2 ∷ []) → ⊥ }

    // Where a node is that was met at two addresses, and which nodes have a mailbox.
    ensures met_twice { (a b : SocketAddr) → address_of ((record { id = 7; address = a } ∷ []) ++ record { id = 7; address = b } ∷ []) 7 ≡ Some a }
    ensures not_met { (a : SocketAddr) → address_of (record { id = 7; address = a } ∷ []) 8 ≡ None }
    ensures no_node { HasMailbox 3 0 → ⊥ }
    ensures last { HasMailbox 3 3 }
    ensures behind_the_last { HasMailbox 3 4 → ⊥ }
{}
