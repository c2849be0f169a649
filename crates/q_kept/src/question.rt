//! Messages that go again, since datagrams are lost.

ghost use Rattle.std.specs.Prelude.{◌≡◌, IsTrue, option_copied, map};
ghost use Rattle.sc_msg.specs.Lengths.{Fits};
ghost use Rattle.q_kept.specs.Questions.{asking_phase, goes_again, is_due, is_kept, kept_questions, looked_at, new_question};

use sc_msg::{Body, Message, Version};
use sc_node::Node;
use sc_operations::{Phase, Session};

/// A join and a leave go again three times: at looks 1, 2 and 4.
const LAST_LOOK: u32 = 4;

/// A message that was given, and that goes again.
pub struct Question {
    /// The message.
    pub message: Message,
    /// How many looks at all questions came since it was given; the count stays at its greatest value.
    pub looks: u32,
}

impl Drop for Question {
    // By hand, so that it is proved here alone, and not in each crate that drops one.
    fn drop(self) {
        let Question {
            message: _,
            looks: _,
        } = self;
    }
}

/// Whether a message goes again: what operations ask, and what a node tells of itself.
pub fn goes_again(message: &Message) -> bool
    ensures { result ≡ goes_again message.now.body }
{
    matches!(
        &message.body,
        Body::Enter | Body::Join | Body::Leave | Body::Store(_) | Body::CollectQuery { .. }
    )
}

/// The phase of an operation of the node that waits for answers to what a message says.
pub(crate) fn asking_phase<'n>(node: &'n Node, body: &Body) -> Option<&'n Phase>
    ensures { option_copied result ≡ asking_phase node.now body.now }
{
    match body {
        Body::Store(store) => {
            let back = node.session(store.tag)?.back()?;
            Some(&back.phase)
        }
        Body::CollectQuery { tag } => match node.session(*tag)? {
            Session::Querying(query) => Some(query),
            _ => None,
        },
        _ => None,
    }
}

impl Question {
    /// A message that was just given.
    pub fn new(message: Message) -> Question
        ensures { result ≡ new_question message }
    {
        Question { message, looks: 0 }
    }

    /// Whether it may go again: an operation of the node waits for answers to it, or the node has not joined; a join
    /// and a leave up to their last look.
    fn is_kept(&self, node: &Node) -> bool
        ensures { result ≡ is_kept node.now self.now.looks self.now.message.body }
    {
        match &self.message.body {
            Body::Enter => !node.is_gone() && !node.has_joined(),
            Body::Join | Body::Leave => self.looks <= LAST_LOOK,
            body => !node.is_gone() && asking_phase(node, body).is_some(),
        }
    }

    /// Whether it goes again at this look: after 1, 2, 4, 8 .. looks, so that a node that is flooded is asked ever less
    /// often. It has bytes in the version.
    pub(crate) fn is_due(&self, version: Version) -> bool
        ensures due { result ≡ is_due version self.now }
        ensures fits { IsTrue result → Fits version self.now.message }
    {
        self.looks.is_power_of_two() && self.message.fits(version)
    }

    /// One look more came.
    fn count_look(&mut self)
        ensures { self.new ≡ looked_at self.old }
    {
        self.looks = self.looks.saturating_add(1);
    }
}

/// Drops the questions that do not go again.
pub(crate) fn drop_answered(questions: &mut Vec<Question>, node: &Node)
    ensures { questions.new.items ≡ kept_questions node.now questions.old.items }
{
    questions.retain(|question| question.is_kept(node));
}

/// Counts one look more at each question.
pub(crate) fn count_looks(questions: &mut [Question])
    ensures { questions.new ≡ map looked_at questions.old }
{
    for question in questions.iter_mut() {
        question.count_look();
    }
}
