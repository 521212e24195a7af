use crate::{Lexeme, LexemeKind, Lexer, text};
use std::alloc::Global;

struct Row {
    bytes: &'static [u8],
    /// A letter for each token: `{`, `}`, `q` for a quoted text, `w` for a word, `u` for a quote that isn't closed.
    kinds: &'static [u8],
    places: &'static [u64],
}

const ROWS: [Row; 7] = [
    Row {
        bytes: b"",
        kinds: b"",
        places: &[],
    },
    Row {
        bytes: b" ,\t\r\n",
        kinds: b"",
        places: &[],
    },
    Row {
        bytes: b"NFG 1 R\"PD\"{\"1\" \"2\"}",
        kinds: b"wwwq{qq}",
        places: &[0, 4, 6, 7, 11, 12, 16, 19],
    },
    Row {
        bytes: b"{2,2}-1/3",
        kinds: b"{ww}w",
        places: &[0, 1, 3, 4, 5],
    },
    Row {
        bytes: b"\"a\\\"b\" x",
        kinds: b"qw",
        places: &[0, 7],
    },
    Row {
        bytes: b"\"\"\"\"\"",
        kinds: b"qqu",
        places: &[0, 2, 4],
    },
    Row {
        bytes: b"\xff\x00 \"\\",
        kinds: b"wu",
        places: &[0, 3],
    },
];

fn letter(token: &Lexeme<'_>) -> u8 {
    match token.kind {
        LexemeKind::Open => b'{',
        LexemeKind::Close => b'}',
        LexemeKind::Quoted(_) => b'q',
        LexemeKind::Word(_) => b'w',
        LexemeKind::Unclosed => b'u',
        LexemeKind::End => b'.',
    }
}

fn is_row(row: &Row) -> bool {
    let mut tokens = Lexer::of(row.bytes);
    for (i, kind) in row.kinds.iter().enumerate() {
        let seen = tokens.peek();
        let token = tokens.next_token();
        if letter(&token) != *kind || row.places.get(i) != Some(&token.at) || seen.at != token.at {
            return false;
        }
    }
    let end = tokens.next_token();
    letter(&end) == b'.' && end.at == row.bytes.len() as u64
}

fn is_kept(alloc: Global, raw: &[u8], kept: &[u8]) -> bool {
    match text(alloc, raw) {
        Ok(text) => {
            for i in 0..text.len() {
                if kept.get(i as usize) != Some(text.get(i)) {
                    return false;
                }
            }
            text.len() as usize == kept.len()
        }
        Err(_) => false,
    }
}

#[test]
fn tokens_and_texts(rt: HostRuntime) {
    for (i, row) in ROWS.iter().enumerate() {
        assert!(rt; is_row(row), "row {i}");
    }
    assert!(rt; is_kept(rt.alloc(), b"", b""));
    assert!(rt; is_kept(rt.alloc(), b"a\\\"b\\c", b"a\"b\\c"));
    assert!(rt; is_kept(rt.alloc(), b"\\\\\"", b"\\\""));
}
