//! Laws of messages and their bytes, in both versions. They are the contracts of functions that do nothing, so whoever
//! needs one at a step calls it there.

ghost use Rattle.std.specs.Prelude.{◌≡◌, ◌≤◌, ℕ, List, length};
ghost use Rattle.sc_msg.specs.Messages.{message_bytes, most_message, IsMessage};
ghost use Rattle.sc_msg.specs.Fault.{IsFault, IsFirstFault};
ghost use Rattle.sc_msg.specs.Lengths.{Fits};

use crate::fault::MessageFault;
use crate::message::Message;
use crate::version::Version;

/// In a version bytes are the spelling of one message at most.
pub fn one_spelling()
    ensures { (version : Version) (m n : Message) → IsMessage version m → IsMessage version n → message_bytes version m ≡ message_bytes version n → m ≡ n }
{}

/// In a version bytes have one fault at most, besides want of memory.
pub fn one_fault()
    ensures { (version : Version) (bytes : List ℕ) (d e : MessageFault) → IsFault version bytes d → IsFault version bytes e → (d ≡ MessageFault.OutOfMemory → ⊥) → (e ≡ MessageFault.OutOfMemory → ⊥) → d ≡ e }
{}

/// What spells a message in a version has no fault in it.
pub fn spelled_has_no_fault()
    ensures { (version : Version) (m : Message) (e : MessageFault) → IsMessage version m → IsFirstFault version (message_bytes version m) e → ⊥ }
{}

/// No spelling has more than 57,629 bytes.
pub fn spelled_is_small()
    ensures { (version : Version) (m : Message) → IsMessage version m → length (message_bytes version m) ≤ most_message }
{}

/// What can be written in the first version can be written in the second.
pub fn first_fits_second()
    ensures { (m : Message) → Fits Version.First m → Fits Version.Second m }
{}
