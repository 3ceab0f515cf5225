// Lines, words and numbers of a text.

use heap_image::{next_line, next_word};
use hh_lang::{read_i64, read_u32};

// A text, its first line, and the text after it.
const LINES: &[(&[u8], &[u8], Option<&[u8]>)] = &[
    (b"a b\n\nc", b"a b", Some(b"\nc")),
    (b"\nc", b"", Some(b"c")),
    (b"c", b"c", None),
    (b"c\n", b"c", Some(b"")),
    (b"", b"", None),
];

#[test]
fn lines_are_cut_at_line_feeds(rt: HostRuntime) {
    for (text, line, rest) in LINES {
        assert!(rt; next_line(text) == (*line, *rest), "{:?}", text);
    }
}

// A line, its first word, and the rest of the line.
const WORDS: &[(&[u8], Option<(&[u8], &[u8])>)] = &[
    (b" \tset\r i0 #1", Some((b"set", b" i0 #1"))),
    (b" i0 #1", Some((b"i0", b"#1"))),
    (b"#1", None),
    (b"a#1 b", Some((b"a#1", b"b"))),
    (b" \r\t", None),
];

#[test]
fn words_stand_between_blanks(rt: HostRuntime) {
    for (line, word) in WORDS {
        assert!(rt; next_word(line) == *word, "{:?}", line);
    }
}

// A word, and the numbers that it stands for.
const NUMBERS: &[(&[u8], Option<u32>, Option<i64>)] = &[
    (b"4294967295", Some(4294967295), Some(4294967295)),
    (b"4294967296", None, Some(4294967296)),
    (b"007", Some(7), Some(7)),
    (b"+7", None, None),
    (b"-0", None, Some(0)),
    (b"", None, None),
    (b"-", None, None),
    (b"--1", None, None),
    (b"1x", None, None),
    (b"\xff1", None, None),
    (b"-9223372036854775808", None, Some(i64::MIN)),
    (b"9223372036854775808", None, None),
];

#[test]
fn numbers_of_texts(rt: HostRuntime) {
    for (word, natural, whole) in NUMBERS {
        assert!(rt;
            (read_u32(word), read_i64(word)) == (*natural, *whole),
            "{:?}",
            word
        );
    }
}
