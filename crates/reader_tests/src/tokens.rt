// Texts with their tokens, and texts with their first fault below the grammar, whose place the texts bear themselves.
use crate::answer::Answer::{BadByte, OpenText};
use crate::answer::{Row as Answered, is_answered};
use jimple_lex::TokenKind::{Keyword, Number, Sign, Text, Word};
use jimple_lex::{Token, TokenKind, lex};
use std::test::Fail;

struct Row {
    text: &'static [u8],
    tokens: &'static [(TokenKind, u64, u64)],
}

static READ: [Row; 31] = [
    Row {
        text: b"",
        tokens: &[],
    },
    Row {
        text: b" \t\r\n",
        tokens: &[],
    },
    Row {
        text: b"class A",
        tokens: &[(Keyword, 0, 5), (Word, 6, 7)],
    },
    Row {
        text: b"java.lang.Object;",
        tokens: &[(Word, 0, 16), (Sign, 16, 17)],
    },
    Row {
        text: b"int.x",
        tokens: &[(Word, 0, 5)],
    },
    Row {
        text: b"'int' 'annotation' '' '1a'",
        tokens: &[(Word, 0, 5), (Word, 6, 18), (Word, 19, 21), (Word, 22, 26)],
    },
    Row {
        text: b"a'b''c'",
        tokens: &[(Word, 0, 1), (Word, 1, 4), (Word, 4, 7)],
    },
    Row {
        text: b"a.'b c'.d",
        tokens: &[(Word, 0, 9)],
    },
    Row {
        text: b"a..b a.1",
        tokens: &[
            (Word, 0, 1),
            (Sign, 1, 2),
            (Sign, 2, 3),
            (Word, 3, 4),
            (Word, 5, 6),
            (Sign, 6, 7),
            (Number, 7, 8),
        ],
    },
    Row {
        text: b"$r0#1 _\\u00e9 \xc3\xa9",
        tokens: &[(Word, 0, 5), (Word, 6, 13), (Word, 14, 16)],
    },
    Row {
        text: b"<init> <clinit>",
        tokens: &[(Word, 0, 6), (Word, 7, 15)],
    },
    Row {
        text: b"<<init>x",
        tokens: &[(Sign, 0, 2), (Word, 2, 6), (Sign, 6, 7), (Word, 7, 8)],
    },
    Row {
        text: b"<init>.x",
        tokens: &[(Word, 0, 6), (Sign, 6, 7), (Word, 7, 8)],
    },
    Row {
        text: b"<init",
        tokens: &[(Sign, 0, 1), (Word, 1, 5)],
    },
    Row {
        text: b"1L -1.5e+3F 0x1F 1e-5-3",
        tokens: &[
            (Number, 0, 2),
            (Number, 3, 11),
            (Number, 12, 16),
            (Number, 17, 21),
            (Number, 21, 23),
        ],
    },
    Row {
        text: b"#-Infinity #NaN1",
        tokens: &[(Number, 0, 10), (Number, 11, 15), (Number, 15, 16)],
    },
    Row {
        text: b"5 -3 - 4",
        tokens: &[(Number, 0, 1), (Number, 2, 4), (Sign, 5, 6), (Number, 7, 8)],
    },
    Row {
        text: b"1_000",
        tokens: &[(Number, 0, 1), (Word, 1, 5)],
    },
    Row {
        text: b"\"a b\" \"\\\"\\\\\" \"\"",
        tokens: &[(Text, 0, 5), (Text, 6, 12), (Text, 13, 15)],
    },
    Row {
        text: b"{}()[],;:@",
        tokens: &[
            (Sign, 0, 1),
            (Sign, 1, 2),
            (Sign, 2, 3),
            (Sign, 3, 4),
            (Sign, 4, 5),
            (Sign, 5, 6),
            (Sign, 6, 7),
            (Sign, 7, 8),
            (Sign, 8, 9),
            (Sign, 9, 10),
        ],
    },
    Row {
        text: b":= . = == != < <= >",
        tokens: &[
            (Sign, 0, 2),
            (Sign, 3, 4),
            (Sign, 5, 6),
            (Sign, 7, 9),
            (Sign, 10, 12),
            (Sign, 13, 14),
            (Sign, 15, 17),
            (Sign, 18, 19),
        ],
    },
    Row {
        text: b">= << >> >>> >>>>",
        tokens: &[
            (Sign, 0, 2),
            (Sign, 3, 5),
            (Sign, 6, 8),
            (Sign, 9, 12),
            (Sign, 13, 16),
            (Sign, 16, 17),
        ],
    },
    Row {
        text: b"+*/%&|^- ===",
        tokens: &[
            (Sign, 0, 1),
            (Sign, 1, 2),
            (Sign, 2, 3),
            (Sign, 3, 4),
            (Sign, 4, 5),
            (Sign, 5, 6),
            (Sign, 6, 7),
            (Sign, 7, 8),
            (Sign, 9, 11),
            (Sign, 11, 12),
        ],
    },
    Row {
        text: b"<A: int f>= x",
        tokens: &[
            (Sign, 0, 1),
            (Word, 1, 2),
            (Sign, 2, 3),
            (Keyword, 4, 7),
            (Word, 8, 9),
            (Sign, 9, 11),
            (Word, 12, 13),
        ],
    },
    Row {
        text: b"a // b",
        tokens: &[(Word, 0, 1)],
    },
    Row {
        text: b"a // b\rc\nd",
        tokens: &[(Word, 0, 1), (Word, 9, 10)],
    },
    Row {
        text: b"a/**/b/* * / \n*/c/***/",
        tokens: &[(Word, 0, 1), (Word, 5, 6), (Word, 16, 17)],
    },
    Row {
        text: b"a /*/ b */ c",
        tokens: &[(Word, 0, 1), (Word, 11, 12)],
    },
    Row {
        text: b"//",
        tokens: &[],
    },
    Row {
        text: b"synthetic null_type newmultiarray",
        tokens: &[(Word, 0, 9), (Keyword, 10, 19), (Keyword, 20, 33)],
    },
    Row {
        text: b"interfaces Class",
        tokens: &[(Word, 0, 10), (Word, 11, 16)],
    },
];

static FAULTS: [Answered; 18] = [
    (b"class A `~", BadByte),
    (b"class A { `/* ", OpenText),
    (b"a.`'b", OpenText),
    (b"a.`'b\n'", OpenText),
    (b"`'a", OpenText),
    (b"`'a\n'", OpenText),
    (b"x `\"a", OpenText),
    (b"`\"a\n\"", OpenText),
    (b"`\"\\\n\"", OpenText),
    (b"`\"\\\"", OpenText),
    (b"`\"\\", OpenText),
    (b"`/*/", OpenText),
    (b"`/* *", OpenText),
    (b"a `!b", BadByte),
    (b"`?", BadByte),
    (b"`#1", BadByte),
    (b" `#-", BadByte),
    (b"`\x00 \"", BadByte),
];

fn is_token(token: Token, (kind, from, to): (TokenKind, u64, u64)) -> bool {
    token == Token { kind, from, to }
}

fn same(found: &[Token], told: &[(TokenKind, u64, u64)]) -> bool {
    found.len() == told.len() && found.iter().zip(told).all(|(f, t)| is_token(*f, *t))
}

#[test]
fn tokens_of_texts(rt: HostRuntime) -> Result<(), Fail> {
    for row in &READ {
        let found = lex(rt.alloc(), row.text, 0)?;
        assert!(rt;
            same(found.as_slice(), row.tokens),
            "{:?} {found:?}",
            row.text
        );
    }
    Ok(())
}

#[test]
fn first_faults_of_texts(rt: HostRuntime) -> Result<(), Fail> {
    for (text, answer) in &FAULTS {
        assert!(rt; is_answered(rt.alloc(), text, *answer)?, "{text:?}");
    }
    Ok(())
}
