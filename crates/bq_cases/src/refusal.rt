//! What is printed of a refusal.

use reasons::Reason;
use std::io;

/// Prints the reason of a refusal, and the unit where it is, if it names one.
pub(crate) fn print_refusal(
    rt: &impl Print,
    reason: Reason,
    unit: Option<usize>,
) -> io::Result<()> {
    match unit {
        Some(unit) => println!(rt; " refused {reason} at {unit}"),
        None => println!(rt; " refused {reason}"),
    }
}
