// The nearest of some words.

use near_words::nearest;

// A word, and its nearest word among `WORDS`, or nothing.
const ROWS: &[(&str, &str)] = &[
    // one letter replaced, one missing, one added, two swapped
    ("mxin", "main"),
    ("mai", "main"),
    ("maiin", "main"),
    ("mian", "main"),
    // two edits, for words of at least five letters
    ("rigth", "right"),
    ("ryght1", "right"),
    ("left_hand", ""),
    // too short, and too far
    ("m", ""),
    ("mxyn", ""),
    ("", ""),
];

// Whether the nearest word is this one.
fn is_nearest(word: &str, wanted: &str) -> bool {
    let words: [&'static [u8]; 3] = [b"main", b"left", b"right"];
    match nearest(word.as_bytes(), &words) {
        None => wanted.is_empty(),
        Some(near) => near == wanted.as_bytes(),
    }
}

#[test]
fn words_are_near(rt: HostRuntime) {
    for (word, wanted) in ROWS {
        assert!(rt; is_nearest(word, wanted), "{word}");
    }
}
