//! What the open operations of a node asked.

use q_book::Book;
use q_held::asking_operation;
use sc_msg::Message;
use std::alloc::Global;

/// A message to which an open operation waits for answers.
#[derive(Drop)]
pub(crate) struct Question {
    /// The operation's tag.
    tag: u64,
    /// What it asks.
    pub(crate) message: Message,
    /// How many looks at all questions came since it was sent.
    looks: u32,
}

impl Question {
    /// Counts one look more, and says whether the question is sent again at it: after 1, 2, 4, 8 .. looks, so that a
    /// node that is flooded is asked ever less often.
    pub(crate) fn is_due(&mut self) -> bool {
        let is_due = self.looks.is_power_of_two();
        self.looks = self.looks.saturating_add(1);
        is_due
    }
}

/// The questions of a node's operations. A question whose operation has ended stays until [`Asked::forget_ended`]; a
/// book has 64 operations open at most.
#[derive(Drop)]
pub(crate) struct Asked {
    pub(crate) questions: Vec<Question>,
}

impl Asked {
    /// None.
    pub(crate) fn none(alloc: Global) -> Asked {
        Asked {
            questions: Vec::new(alloc),
        }
    }

    /// Keeps a message that was sent, if it is a question. Where memory runs out it is not asked again.
    pub(crate) fn keep(&mut self, message: Message) {
        if let Some(tag) = asking_operation(&message) {
            let _ = self.questions.push(Question {
                tag,
                message,
                looks: 0,
            });
        }
    }

    /// Drops the questions of operations that the book does not have open.
    pub(crate) fn forget_ended(&mut self, book: &Book) {
        self.questions.retain(|question| book.is_open(question.tag));
    }
}
