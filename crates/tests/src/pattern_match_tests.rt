//! The worked patterns: which texts are read, where the others are refused, and which words are accepted.
use pattern_match::{Matcher, Pattern, PatternError};
use std::alloc::{AllocError, Global};
use std::process::Abort;

/// How a text is read.
#[derive(Clone, Copy, Debug, PartialEq, Eq, Drop)]
enum Verdict {
    Read,
    At(u64),
    TooLarge,
    Memory,
}

use Verdict::{At, Read, TooLarge};

static TEXTS: [(&str, Verdict); 32] = [
    ("[A-Z]{3,3}", Read),
    ("[z-a]", At(3)),
    ("a{3,2}", At(5)),
    ("(a", At(2)),
    ("\\d", At(1)),
    ("[]", At(1)),
    ("a{70000}", TooLarge),
    ("a{999999999}", TooLarge),
    ("a{65536}", Read),
    ("a{65537}", TooLarge),
    ("(){999999999}", Read),
    ("(a{999999999}){0}", Read),
    ("a{999999999}(", At(13)),
    ("(a{256}){256}", Read),
    ("(a{256}){257}", TooLarge),
    ("a{65536}a{65536}", TooLarge),
    ("((a)){65536}", Read),
    ("(((a{65536})))b", TooLarge),
    ("[^^]", Read),
    ("[^]", At(2)),
    ("[a^]", Read),
    ("[^a^]", Read),
    ("[~-\\n]", At(3)),
    ("a{999999999,8", At(12)),
    ("a{5,4", At(5)),
    ("[}-\\}]", Read),
    ("[--]", Read),
    ("[-]", Read),
    ("[--a]", At(3)),
    ("[a--]", At(3)),
    ("[a-c-]", Read),
    ("[a-c-e]", At(5)),
];

static WORDS: [(&str, &str, bool); 36] = [
    ("[A-Z]{3,3}", "ABC", true),
    ("[A-Z]{3,3}", "AB", false),
    ("[A-Z]{3,3}", "ABCD", false),
    ("[A-Z]{3,3}", "ABc", false),
    ("a{0,1}|^$", "", true),
    ("a{0,1}|^$", "a", true),
    ("a{0,1}|^$", "^$", true),
    ("(a|ab)(c|bcd)", "abcd", true),
    ("(a|ab)(c|bcd)", "ac", true),
    ("(a|ab)(c|bcd)", "abc", true),
    ("(a|ab)(c|bcd)", "abbcd", true),
    ("(a|ab)(c|bcd)", "ab", false),
    ("(a|ab)(c|bcd)", "abcdd", false),
    (".*Z", "2024-02-29T23:59:59Z", true),
    (".*Z", "2024-02-29\nZ", false),
    ("([^a-c]|\\s)+", "xyz \t", true),
    ("([^a-c]|\\s)+", "xbz", false),
    ("(a*b){2,}", "abb", true),
    ("(a*b){2,}", "ab", false),
    ("(|a||)", "", true),
    ("(|a||)", "a", true),
    ("(|a||)", "aa", false),
    ("((a|)){2}", "aa", true),
    ("((a|)){2}", "", true),
    ("((a|)){2}", "aaa", false),
    ("((a+)?b)*", "aabbab", true),
    ("((a+)?b)*", "aabba", false),
    ("((a?)+){2}", "aaaa", true),
    ("((a+)){2}", "a", false),
    ("(()|b{0}|(ab))+", "abab", true),
    ("(()|b{0}|(ab))+", "aba", false),
    ("(a|b{0,1500}c)+d", "abbcacd", true),
    ("(a|b{0,1500}c)+d", "abbacd", false),
    ("(x(y{1200}|(a|b)*c)*z)+", "xabcczxz", true),
    ("(x(y{1200}|(a|b)*c)*z)+", "xabccxz", false),
    (".*(ab{1100}|cd)e", "xabcde", true),
];

fn read_as(alloc: Global, text: &str) -> Verdict {
    match Pattern::read(alloc, text) {
        Ok(_) => Verdict::Read,
        Err(PatternError::Refused { place }) => Verdict::At(place),
        Err(PatternError::TooLarge) => Verdict::TooLarge,
        Err(PatternError::Memory) => Verdict::Memory,
    }
}

/// Whether a word is accepted, by a matcher that has read another before.
fn accepted(alloc: Global, pattern: &Pattern, word: &str) -> Result<bool, AllocError> {
    let mut matcher = Matcher::new(alloc, pattern)?;
    matcher.step(pattern, 'A');
    matcher.restart(pattern);
    for c in word.chars() {
        matcher.step(pattern, c);
    }
    Ok(matcher.accepts(pattern))
}

/// Each text of the rows is read as they say.
fn check_texts(rt: &impl Abort, alloc: Global, rows: &[(&str, Verdict)]) {
    for (text, expected) in rows {
        let found = read_as(alloc, text);
        assert!(rt; found == *expected, "{text}");
    }
}

/// Each word of the rows is accepted, or not, as they say.
fn check_words(
    rt: &impl Abort,
    alloc: Global,
    rows: &[(&str, &str, bool)],
) -> Result<(), PatternError> {
    for (text, word, expected) in rows {
        let pattern = Pattern::read(alloc, text)?;
        let found = accepted(alloc, &pattern, word)?;
        assert!(rt; found == *expected, "{text} at {word}");
    }
    Ok(())
}

#[test]
fn texts(rt: HostRuntime) {
    check_texts(&rt, rt.alloc(), &TEXTS);
}

#[test]
fn words(rt: HostRuntime) -> Result<(), PatternError> {
    check_words(&rt, rt.alloc(), &WORDS)
}

#[test]
fn text_is_kept(rt: HostRuntime) -> Result<(), PatternError> {
    let pattern = Pattern::read(rt.alloc(), "a|b")?;
    assert!(rt; pattern.text() == b"a|b".as_slice());
    Ok(())
}
