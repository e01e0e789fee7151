//! Tests of envelopes: inputs that are one, and inputs that are not.

use crate::same::same;
use pm_envelope::{FILE_LIMIT, number_up_to, open_envelope, split_line};

/// Whether the input is an envelope of this file and this rest.
fn opens_as(input: &str, file: &str, rest: &str) -> bool {
    match open_envelope(input.as_bytes()) {
        Some(envelope) => envelope.file == file.as_bytes() && envelope.rest == rest.as_bytes(),
        None => false,
    }
}

/// An input, the file in it, and what follows the file.
const ENVELOPES: &[(&str, &str, &str)] = &[
    ("3\nabcde", "abc", "de"),
    ("0\nab\n", "", "ab\n"),
    ("10\n\n123456789", "\n123456789", ""),
    ("0\n", "", ""),
];

#[test]
fn an_envelope_has_a_file_and_a_rest(rt: HostRuntime) {
    for (input, file, rest) in ENVELOPES {
        same(&rt, *input, opens_as(*input, *file, *rest), true);
    }
}

const OTHER_INPUTS: &[&str] = &[
    "",
    "\n",
    "0",
    "05\nabcde",
    "00\n",
    "6\nabcde",
    "5abcde",
    "5 \nabcde",
    "+5\nabcde",
    "-0\n",
    "4194305\n",
];

#[test]
fn other_inputs_are_no_envelopes(rt: HostRuntime) {
    for input in OTHER_INPUTS {
        let opens = open_envelope(input.as_bytes()).is_some();
        same(&rt, *input, opens, false);
    }
}

/// A limit, a text, and the number that is read.
const NUMBERS: &[(u32, &str, Option<u32>)] = &[
    (FILE_LIMIT, "4194304", Some(FILE_LIMIT)),
    (FILE_LIMIT, "4194305", None),
    (FILE_LIMIT, "99999999999999999999999999", None),
    (FILE_LIMIT, "0", Some(0)),
    (FILE_LIMIT, "00", None),
    (u32::MAX, "4294967295", Some(u32::MAX)),
    (u32::MAX, "4294967296", None),
];

#[test]
fn numbers_are_read_to_their_limit(rt: HostRuntime) {
    for (limit, text, number) in NUMBERS {
        let read = number_up_to(*limit, text.as_bytes());
        same(&rt, *text, read, *number);
    }
}

/// Whether this is the first line of the text, and this the rest.
fn splits_into(text: &str, line: &str, rest: &str) -> bool {
    match split_line(text.as_bytes()) {
        Some((first, others)) => first == line.as_bytes() && others == rest.as_bytes(),
        None => false,
    }
}

#[test]
fn a_line_ends_at_the_first_line_feed(rt: HostRuntime) {
    same(&rt, "no end", split_line(b"no end").is_none(), true);
    let splits = splits_into("one\ntwo\n", "one", "two\n");
    same(&rt, "two lines", splits, true);
    same(&rt, "no text", splits_into("\n", "", ""), true);
}
