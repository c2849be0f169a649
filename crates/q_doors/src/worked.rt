//! Worked values of datagrams, and of where clients come in.

ghost use Rattle.std.specs.Prelude.{◌≡◌, ◌≢◌, ℕ, List, [], ◌∷◌, ◌++◌, codes, true, false, Some, None};
ghost use Rattle.std.specs.declared.io.ErrorKind.TheVariants as io;
ghost use Rattle.std.specs.declared.net.socket_addr.SocketAddr.{SocketAddr};
ghost use Rattle.reasons.specs.Table as table;
ghost use Rattle.q_outside.specs.Peers.{HasMailbox};
ghost use Rattle.q_script.specs.declared.node_line.NodeLine.{NodeLine as Node};
ghost use Rattle.q_doors.specs.Datagrams.{IsAdmitted, IsReceived, OnMessage, address_of, framed, sender_in};
ghost use Rattle.q_doors.specs.Faults.{fault_of, reason};
ghost use Rattle.q_doors.specs.Places.{IsPlace};
ghost use Rattle.q_doors.specs.declared.fault.PostFault.TheVariants as fault;
ghost use Rattle.q_doors.specs.declared.place.DoorAddress.TheVariants as place;
ghost use Rattle.q_doors.specs.declared.post.Received.TheVariants as received;

/// What the definitions say at telling datagrams.
pub fn worked()
    // The number stands first, its lowest byte before the others, and the sender behind four bytes of the message.
    ensures number_first { framed 258 (7 ∷ []) ≡ 2 ∷ 1 ∷ 0 ∷ 0 ∷ 0 ∷ 0 ∷ 0 ∷ 0 ∷ 7 ∷ [] }
    ensures sender { (rest : List ℕ) → sender_in (66 ∷ 81 ∷ 2 ∷ 1 ∷ 4 ∷ 1 ∷ 0 ∷ 0 ∷ 0 ∷ 0 ∷ 0 ∷ 0 ∷ rest) ≡ 260 }
    ensures too_short { (nodes : List Node) (from : SocketAddr) → IsAdmitted 7 nodes from (framed 7 (66 ∷ 81 ∷ [])) (66 ∷ 81 ∷ []) → ⊥ }

    // Of two lines with one id the first counts.
    ensures first_line { (a b : SocketAddr) → address_of (record { id = 7; is_founder = true; address = a } ∷ record { id = 7; is_founder = false; address = b } ∷ []) 7 ≡ Some a }
    ensures no_line { (a : SocketAddr) → address_of (record { id = 7; is_founder = true; address = a } ∷ []) 8 ≡ None }

    // The numbers of refusals.
    ensures no_such_node { table.number (reason fault.NoSuchNode) ≡ 81 }
    ensures in_use { table.number (reason fault.InUse) ≡ 86 }
    ensures not_here { table.number (reason fault.NotHere) ≡ 86 }
    ensures failed { table.number (reason fault.Failed) ≡ 86 }
    ensures out_of_memory { table.number (reason fault.OutOfMemory) ≡ 99 }

    // Why a socket has no address.
    ensures address_in_use { fault_of io.AddrInUse ≡ fault.InUse }
    ensures other_machine { fault_of io.AddrNotAvailable ≡ fault.NotHere }
    ensures denied { fault_of io.PermissionDenied ≡ fault.Failed }
{}

/// What the definitions say of datagrams that are heard or are not, and of a place that is no address.
pub fn worked_heard()
    // A message is not heard from an address that is not its sender's, nor behind the number of another run.
    ensures elsewhere { (a b : SocketAddr) → b ≢ a
        → let message = 66 ∷ 81 ∷ 2 ∷ 1 ∷ 4 ∷ 1 ∷ 0 ∷ 0 ∷ 0 ∷ 0 ∷ 0 ∷ 0 ∷ [] in
        IsAdmitted 7 (record { id = 260; is_founder = true; address = a } ∷ []) b (framed 7 message) message → ⊥ }
    ensures other_run { (nodes : List Node) (from : SocketAddr) (message : List ℕ)
        → IsAdmitted 7 nodes from (framed 72057594037927943 message) message → ⊥ }

    // A message that is heard is moved to the start of the buffer; one that fills the buffer is not heard.
    ensures moved { (a : SocketAddr)
        → let message = 66 ∷ 81 ∷ 2 ∷ 1 ∷ 4 ∷ 1 ∷ 0 ∷ 0 ∷ 0 ∷ 0 ∷ 0 ∷ 0 ∷ [] in
        IsReceived 7 (record { id = 260; is_founder = true; address = a } ∷ []) a 20 (framed 7 message ++ 9 ∷ [])
        (message ++ 7 ∷ 0 ∷ 0 ∷ 0 ∷ 0 ∷ 0 ∷ 0 ∷ 0 ∷ 9 ∷ []) (received.Message 12) }
    ensures not_moved { (nodes : List Node) (from : SocketAddr)
        → let message = 66 ∷ 81 ∷ 2 ∷ 1 ∷ 4 ∷ 1 ∷ 0 ∷ 0 ∷ 0 ∷ 0 ∷ 0 ∷ 0 ∷ [] in
        IsReceived 7 nodes from 20 (framed 7 message ++ 9 ∷ []) (framed 7 message ++ 9 ∷ []) (received.Message 12) → ⊥ }
    ensures full { (nodes : List Node) (from : SocketAddr) (new : List ℕ)
        → let message = 66 ∷ 81 ∷ 2 ∷ 1 ∷ 4 ∷ 1 ∷ 0 ∷ 0 ∷ 0 ∷ 0 ∷ 0 ∷ 0 ∷ [] in
        IsReceived 7 nodes from 20 (framed 7 message) new (received.Message 12) → ⊥ }

    // Over memory a message names one of so many mailboxes as its sender.
    ensures no_mailbox { OnMessage (λ bytes. HasMailbox 259 (sender_in bytes))
        (66 ∷ 81 ∷ 2 ∷ 1 ∷ 4 ∷ 1 ∷ 0 ∷ 0 ∷ 0 ∷ 0 ∷ 0 ∷ 0 ∷ []) (received.Message 12) → ⊥ }

    // A place that is no address is the path that was written.
    ensures path { (path : _) → IsPlace (codes "door") (place.Unix path) → path.now ≡ codes "door" }
{}
