//! What may stand on a line, by its first word.

use bq_asm::Mnemonic;

/// A word without the digits at its end.
fn stem(word: &str) -> &str {
    word.trim_end_matches(|letter: char| letter.is_ascii_digit())
}

/// The form of an instruction with this mnemonic, in words.
fn form(mnemonic: Mnemonic) -> &'static str {
    match mnemonic {
        Mnemonic::Alu(..) =>
            "Arithmetic has its width after its name, and takes a register, a comma, and a\nregister or a number from -2147483648 to 2147483647: add64 r1, r2 or mov32 r0, -5.",
        Mnemonic::Branch(..) =>
            "A conditional jump has its width after its name, and takes a register, a register\nor a number, and a later label or a distance, with commas between:\njlt64 r4, 10, done or jlt64 r4, 10, +2.",
        Mnemonic::Load(_) | Mnemonic::LoadSigned(_) =>
            "Loads are load1, load2, load4, load8, loads1, loads2 and loads4, and take a\nregister, a comma, and a place whose distance is always written: load8 r4, [r1+16].",
        Mnemonic::Store(_) =>
            "Stores are store1, store2, store4 and store8, and take a place whose distance is\nalways written, a comma, and a register or a number: store8 [r10-8], r4.",
        Mnemonic::Jump | Mnemonic::JumpFar =>
            "ja and ja32 take a label of a later line, or a distance with its sign: ja done or ja +2.",
        Mnemonic::Negate(_) => "neg32 and neg64 take a register: neg64 r0.",
        Mnemonic::Order(..) =>
            "Byte orders have 16, 32 or 64 after their name, and take a register: be16 r0.",
        Mnemonic::Extend(_) =>
            "Moves with a sign are mov32s8, mov32s16, mov64s8, mov64s16 and mov64s32, and take\ntwo registers: mov64s8 r0, r4.",
        Mnemonic::Wide => "wide takes a register and a number below 2^64: wide r0, 1099511627785.",
        Mnemonic::Exit => "exit stands alone.",
    }
}

/// The form of an instruction whose first word is this one, or has other digits at its end, in words.
fn instruction(word: &str) -> &'static str {
    let asked = stem(word);
    for mnemonic in Mnemonic::all() {
        if stem(mnemonic.name()) == asked {
            return form(*mnemonic);
        }
    }
    "No instruction begins so. A line has one instruction, as mov64 r0, r3; or a label\nalone, as done: or a comment, which begins with #; or nothing."
}

/// What an assembler line may say that begins as this text does.
pub fn assembler_line(text: &str) -> &'static str {
    if text.starts_with('\u{feff}') {
        return "It begins with a byte order mark. Save the file as UTF-8 without one.";
    }
    if !text.is_ascii() {
        return "It has a letter that is not ASCII. Lines are ASCII, comments too.";
    }
    if text.contains('\r') {
        return "It has a carriage return. Lines end with a line feed alone.";
    }
    if text.contains('\t') {
        return "It has a tab. Spaces alone stand between words.";
    }
    let text = text.trim_start_matches(' ');
    match text.split_once(' ') {
        Some((first, _)) => instruction(first),
        None => instruction(text),
    }
}

/// What an event of a script takes.
fn event(word: &str) -> &'static str {
    match word {
        "program" =>
            "program NODE HEX, where HEX is the program's bytes in one word, two hexadecimal\ndigits each: what asm lists, without its line feeds.",
        "store" =>
            "store NODE VALUE, where VALUE is a number in decimal, or x and two hexadecimal\ndigits for each of its bytes: store 1 5 or store 1 x05ff.",
        "ask" => "ask NODE PROGRAM START, with one space between, in decimal",
        "deliver" => "deliver MESSAGE NODE, with one space between, in decimal",
        "all" => "all LIMIT, in decimal",
        "hand" => "hand NODE, in decimal",
        "run" => "run JOB, in decimal",
        "enter" => "enter ID, in decimal",
        "leave" => "leave ID, in decimal",
        "crash" => "crash ID, in decimal",
        "pairs" => "pairs stands alone.",
        "journal" => "journal NODE FILE: the file's name is one word.",
        "nodes" => "nodes stands on the first line, and only there.",
        _ =>
            "No event begins so. They are program, store, ask, deliver, all, hand, run, enter,\nleave, crash, pairs and journal, one a line, with no blank lines and no comments.",
    }
}

/// What the line of a script with this number, counted from 1, may say that begins as this text does.
pub fn script_line(number: usize, text: &str) -> &'static str {
    if text.contains('\r') {
        return "It has a carriage return. Lines end with a line feed alone.";
    }
    if text.starts_with('\u{feff}') {
        return "It begins with a byte order mark. Save the file as UTF-8 without one.";
    }
    if number <= 1 {
        return "The first line founds the cluster: nodes N B/B G/G, as nodes 3 4/5 4/5.";
    }
    match text.split_once(' ') {
        Some((first, _)) => event(first),
        None => event(text),
    }
}
