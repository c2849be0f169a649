//! What goes again at a look, and to whom.

ghost use Rattle.std.specs.Prelude.{◌≡◌, Some, OnOk, OnErr, map};
ghost use Rattle.std.specs.List.{flat_map};
ghost use Rattle.sc_msg.specs.Lengths.{Fits};
ghost use Rattle.q_kept.specs.Letters.{AddsAll, AddsFirst, SpellsFirst, message_to};
ghost use Rattle.q_kept.specs.Questions.{due, due_of, kept_questions, looked_at, uncounted};

use crate::letter::{Letter, push_letter};
use crate::question::{Question, asking_phase, count_looks, drop_answered};
use q_held::LiveNode;
use sc_msg::{Body, Message, Version};
use sc_node::Node;
use sc_operations::Phase;
use std::alloc::{AllocError, Global};

/// Puts letters of a message behind others: one to each of these nodes that the phase has not counted. At Err only
/// those to the first of them.
fn push_uncounted(
    alloc: Global,
    version: Version,
    phase: &Phase,
    nodes: &[u64],
    message: &Message,
    letters: &mut Vec<Letter>,
) -> Result<(), AllocError>
    requires { Fits version message.now }
    ensures ok { OnOk result (AddsAll version (map (message_to message.now) (map Some (uncounted (Some phase.now) nodes.now)))
        letters.old.items letters.new.items) }
    ensures err { OnErr result (AddsFirst version (map (message_to message.now) (map Some (uncounted (Some phase.now) nodes.now)))
        letters.old.items letters.new.items) }
{
    for id in nodes {
        if !phase.counted.contains(*id) {
            push_letter(alloc, version, Some(*id), message, letters)?;
        }
    }
    Ok(())
}

/// Puts letters of a question behind others, if it is due: one to each node to which it goes, or one to all. At Err
/// only the first of them.
fn push_question(
    alloc: Global,
    version: Version,
    node: &Node,
    nodes: &[u64],
    question: &Question,
    letters: &mut Vec<Letter>,
) -> Result<(), AllocError>
    ensures ok { OnOk result (AddsAll version (due_of version node.now nodes.now question.now)
        letters.old.items letters.new.items) }
    ensures err { OnErr result (AddsFirst version (due_of version node.now nodes.now question.now)
        letters.old.items letters.new.items) }
{
    if !question.is_due(version) {
        return Ok(());
    }
    let message = &question.message;
    match &message.body {
        Body::Enter | Body::Join | Body::Leave => {
            push_letter(alloc, version, None, message, letters)
        }
        body => match asking_phase(node, body) {
            Some(phase) => push_uncounted(alloc, version, phase, nodes, message, letters),
            None => Ok(()),
        },
    }
}

/// Puts letters of all questions that are due behind others. At Err only the first of them.
fn push_due(
    alloc: Global,
    version: Version,
    node: &Node,
    nodes: &[u64],
    questions: &[Question],
    letters: &mut Vec<Letter>,
) -> Result<(), AllocError>
    ensures ok { OnOk result (AddsAll version (flat_map (due_of version node.now nodes.now) questions.now)
        letters.old.items letters.new.items) }
    ensures err { OnErr result (AddsFirst version (flat_map (due_of version node.now nodes.now) questions.now)
        letters.old.items letters.new.items) }
{
    for question in questions {
        push_question(alloc, version, node, nodes, question, letters)?;
    }
    Ok(())
}

/// What goes again at this look, and one look more of each question. Questions that do not go again are dropped.
pub(crate) fn ask_again(
    alloc: Global,
    held: &LiveNode<'_>,
    nodes: &[u64],
    questions: &mut Vec<Question>,
) -> Vec<Letter>
    ensures due { SpellsFirst held.now.book.version
        (due held.now.book.version held.now.book.node nodes.now questions.old.items) result.items }
    ensures looked { questions.new.items ≡ map looked_at (kept_questions held.now.book.node questions.old.items) }
{
    let mut letters = Vec::new(alloc);
    let version = held.book.version();
    let node = held.book.node();
    drop_answered(questions, node);
    let _ = push_due(alloc, version, node, nodes, questions, &mut letters);
    count_looks(questions);
    letters
}
