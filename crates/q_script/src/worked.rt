//! Worked values of numbers, lines, scripts, lists of records, and files of clusters.

ghost use Rattle.std.specs.Prelude.{◌≡◌, [], ◌∷◌, ℕ, List, Some, None, codes, replicate, true, false};
ghost use Rattle.std.specs.Net.Grammar.{IsSocketText};
ghost use Rattle.std.specs.declared.net.socket_addr.SocketAddr.{SocketAddr};
ghost use Rattle.reasons.specs.Table as table;
ghost use Rattle.bq_range.specs.Interval.{Interval};
ghost use Rattle.q_script.specs.Words.{IsNumeral};
ghost use Rattle.q_script.specs.Line.{Spells};
ghost use Rattle.q_script.specs.Founding.{SpellsFounding};
ghost use Rattle.q_script.specs.Script.{IsScriptOf};
ghost use Rattle.q_script.specs.Records.{AreDigits, AreGood, IsValue, reason, value_bytes};
ghost use Rattle.q_script.specs.declared.founding.Founding.{Founding};
ghost use Rattle.q_script.specs.declared.call_line.CallLine.TheVariants as call;
ghost use Rattle.q_script.specs.declared.line.ScriptLine.TheVariants as line;
ghost use Rattle.q_script.specs.declared.records.RecordFault.TheVariants as fault;
ghost use Rattle.q_script.specs.declared.node_line.NodeLine.{NodeLine as Node};
ghost use Rattle.q_script.specs.declared.fault.ClusterFileFault.TheVariants as file_fault;
ghost use Rattle.q_script.specs.NodeLine.{SpellsHeading, SpellsNode};
ghost use Rattle.q_script.specs.File.{AreApart, IsFault, IsFaulty, founder_ids, reason as file_reason};

/// What the definitions say of telling numbers, lines, scripts and records.
pub fn worked()
    // Numbers.
    ensures zero { IsNumeral (codes "0") 0 }
    ensures zero_in_front_of_zero { IsNumeral (codes "00") 0 → ⊥ }
    ensures zero_in_front { IsNumeral (codes "07") 7 → ⊥ }

    // Events: of `deliver` the message stands before the node.
    ensures alone { Spells (codes "pairs") line.Pairs }
    ensures delivered { Spells (codes "deliver 7 3") (line.Deliver 7 3) }
    ensures node_first { Spells (codes "deliver 7 3") (line.Deliver 3 7) → ⊥ }

    // Stores: digits behind x are bytes, and each byte has two.
    ensures stored { (value : _) → value.items ≡ 5 ∷ 255 ∷ [] → Spells (codes "store 1 x05fF") (line.Call (call.Store 1 value)) }
    ensures capital_x { (bytes : List ℕ) → IsValue (codes "X00") bytes → ⊥ }
    ensures odd_digits { (bytes : List ℕ) → IsValue (codes "x123") bytes → ⊥ }

    // The line that founds: beta stands before gamma.
    ensures founded { SpellsFounding (codes "nodes 3 4/5 2/3") (record { count = 3; beta = record { numerator = 4; denominator = 5 }; gamma = record { numerator = 2; denominator = 3 } }) }
    ensures gamma_first { SpellsFounding (codes "nodes 3 4/5 2/3") (record { count = 3; beta = record { numerator = 2; denominator = 3 }; gamma = record { numerator = 4; denominator = 5 } }) → ⊥ }

    // Scripts: no event is left out.
    ensures event_left_out { (founding : Founding) → IsScriptOf Spells (codes "nodes 1 1/1 1/1\npairs\n") founding [] → ⊥ }

    // Records.
    ensures little_endian { value_bytes 258 ≡ 2 ∷ 1 ∷ replicate 46 0 }
    ensures digits { IsValue (codes "x05ff00") (5 ∷ 255 ∷ 0 ∷ []) }
    ensures capital { IsValue (codes "xFf") (255 ∷ []) }
    ensures no_byte { IsValue (codes "x") [] }
    ensures each_byte { AreDigits (codes "05ff00") (5 ∷ 255 ∷ 0 ∷ []) }
    ensures id_again { (lengths : Interval) (a b : List ℕ) → AreGood lengths None (record { id = 3; number = 1; value = a } ∷ record { id = 3; number = 2; value = b } ∷ []) → ⊥ }
    ensures unsorted { table.number (reason fault.Unsorted) ≡ 75 }
    ensures bad_field { table.number (reason fault.BadField) ≡ 77 }
    ensures bad_value { table.number (reason fault.BadValue) ≡ 50 }
    ensures full { table.number (reason fault.Full) ≡ 46 }
    ensures full_name { table.name (reason fault.Full) ≡ codes "ViewFull" }
{}

/// What the definitions say of a cluster's file, at telling texts.
pub fn worked_files()
    // The first line: beta stands before gamma, and one space between words.
    ensures heading { SpellsHeading (codes "cluster 7310582 2/3 4/5") (record { number = 7310582; beta = record { numerator = 2; denominator = 3 }; gamma = record { numerator = 4; denominator = 5 } }) }
    ensures gamma_first { SpellsHeading (codes "cluster 1 2/3 4/5") (record { number = 1; beta = record { numerator = 4; denominator = 5 }; gamma = record { numerator = 2; denominator = 3 } }) → ⊥ }

    // Nodes: the word tells who founds, and the id stands before the address.
    ensures founder { (a : SocketAddr) → IsSocketText (codes "10.88.0.1:7000") a → SpellsNode (codes "founder 1 10.88.0.1:7000") (record { id = 1; is_founder = true; address = a }) }
    ensures node { (a : SocketAddr) → IsSocketText (codes "[::4]:7000") a → SpellsNode (codes "node 4 [::4]:7000") (record { id = 4; is_founder = false; address = a }) }
    ensures no_founder { (a : SocketAddr) → SpellsNode (codes "node 4 10.88.0.4:7000") (record { id = 4; is_founder = true; address = a }) → ⊥ }
    ensures empty_line { (n : Node) → SpellsNode (codes "") n → ⊥ }
    ensures port_0 { (n : Node) → SpellsNode (codes "node 4 10.88.0.4:0") n → ⊥ }

    // A 1025th node is one too many, whatever its line.
    ensures too_many { (text : List ℕ) → IsFaulty 1025 text }
    ensures not_too_many { (text : List ℕ) (n : Node) → SpellsNode text n → IsFaulty 1024 text → ⊥ }

    // Founders are told by their lines.
    ensures founders { (a b c : SocketAddr) → founder_ids (record { id = 7; is_founder = true; address = a } ∷ record { id = 4; is_founder = false; address = b } ∷ record { id = 9; is_founder = true; address = c } ∷ []) ≡ 7 ∷ 9 ∷ [] }
    ensures heading_alone { IsFault (codes "cluster 1 2/3 2/3\n") file_fault.BadFounders }
    ensures improper { IsFault (codes "cluster 1 2/3 4/3") file_fault.BadFraction }

    // No two lines have one id or one address.
    ensures id_again { (a b : SocketAddr) → AreApart (record { id = 7; is_founder = true; address = a } ∷ record { id = 7; is_founder = false; address = b } ∷ []) → ⊥ }
    ensures address_again { (a : SocketAddr) → AreApart (record { id = 7; is_founder = true; address = a } ∷ record { id = 8; is_founder = false; address = a } ∷ []) → ⊥ }

    // What is first wrong with a text, and its number.
    ensures empty_text { IsFault [] (file_fault.Syntax 1) }
    ensures empty_line_between { IsFault (codes "cluster 1 2/3 2/3\n\n") (file_fault.Syntax 2) }
    ensures syntax { table.number (file_reason (file_fault.Syntax 1)) ≡ 9 }
    ensures bad_fraction { table.number (file_reason file_fault.BadFraction) ≡ 45 }
    ensures bad_founders { table.number (file_reason file_fault.BadFounders) ≡ 49 }
    ensures id_used { table.number (file_reason file_fault.IdUsed) ≡ 44 }
{}
