//! Why notes that pass make a text safe to run.
//!
//! Notes give a state to each unit of a text that a run may reach: what is known there of each register.
//! They pass where the flow is legal, the state at unit 0 covers the entry, the instruction at each unit
//! with a state breaks no rule, and the state at each feasible successor covers what it leaves. Where records
//! have one length alone, each state knows that length, and no register as a length.
//!
//! [`laws`] has what follows. An instruction that breaks no rule of a state does not fault in a machine
//! that the state covers, and what it leaves is covered by the state of a feasible edge. A text whose
//! notes pass never faults: from every accumulator, record and frame its run ends within the longest
//! path, with one answer and one frame at every placement. So over any records there is one answer, and
//! nothing of an address reaches it.
//!
//! The definitions are in `specs/`: `Passes` says which notes pass, `Steps` what a step keeps, and `Safe`
//! what is promised of a text. The proof steps a machine whose registers are numbers, or offsets from the
//! start of the frame or of the record: at each placement it is the machine of the meaning, and both step
//! alike.
//!
//! The checker answers a certificate by these laws, and the loop over records runs by them with no test.
#![tactic(auto)]

pub mod laws;
