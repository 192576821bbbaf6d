//! Texts and their tokens.
use crate::cases::{Call, judge, unfolded};
use au_lex::{Lexeme, Token, tokens};
use std::alloc::{AllocError, Global};
use std::test::Fail;

fn describe(alloc: Global, token: &Token) -> Result<String, AllocError> {
    let from = token.from;
    let to = token.to;
    match &token.what {
        Lexeme::Name(word) => format!(in alloc; "{from}-{to} name {};", word.as_str()),
        Lexeme::Quoted(word) => format!(in alloc; "{from}-{to} quoted {};", word.as_str()),
        Lexeme::Text(word) => format!(in alloc; "{from}-{to} text {};", word.as_str()),
        Lexeme::Number(n) => format!(in alloc; "{from}-{to} number {n};"),
        Lexeme::Decimal(n, places) => format!(in alloc; "{from}-{to} decimal {n} {places};"),
        Lexeme::Key(key) => format!(in alloc; "{from}-{to} {key:?};"),
        Lexeme::Symbol(symbol) => format!(in alloc; "{from}-{to} {symbol:?};"),
    }
}

fn tokens_text(alloc: Global, tokens: &[Token]) -> Result<String, AllocError> {
    let mut text = String::new(alloc);
    for token in tokens {
        text.push_str(describe(alloc, token)?.as_str())?;
    }
    Ok(text)
}

struct Tokens;

impl Call for Tokens {
    fn outcome(alloc: Global, given: &str) -> Result<String, Fail> {
        let query = given.replace(alloc, '~', "\n")?;
        match tokens(alloc, query.as_str()) {
            Ok(list) => Ok(tokens_text(alloc, list.items())?),
            Err(fault) => Ok(format!(in alloc; "{fault:?}")?),
        }
    }
}

// How many tokens a text has.
struct Count;

impl Call for Count {
    fn outcome(alloc: Global, given: &str) -> Result<String, Fail> {
        let query = unfolded(alloc, given)?;
        let count = tokens(alloc, query.as_str()).map(|list| list.items().len());
        Ok(format!(in alloc; "{count:?}")?)
    }
}

const TOKENS: &str = " -> 
 \t\r~ -> 
SELECT Distinct all FROM WHERE group BY HAVING UNION EXCEPT AS AND OR NOT CASE WHEN THEN ELSE END TRUE False -> 0-6 Select;7-15 Distinct;16-19 All;20-24 From;25-30 Where;31-36 Group;37-39 By;40-46 Having;47-52 Union;53-59 Except;60-62 As;63-66 And;67-69 Or;70-73 Not;74-78 Case;79-83 When;84-88 Then;89-93 Else;94-97 End;98-102 True;103-108 False;
( ) , . * + - = <> != < <= > >= ; -> 0-1 Open;2-3 Close;4-5 Comma;6-7 Dot;8-9 Star;10-11 Plus;12-13 Minus;14-15 Equal;16-18 Differs;19-21 Differs;22-23 Less;24-26 AtMost;27-28 Greater;29-31 AtLeast;32-33 Semicolon;
x_1 _ SeLeCtFROM -> 0-3 name x_1;4-5 name _;6-16 name SeLeCtFROM;
a--b -> 0-1 name a;
a --b~c -> 0-1 name a;6-7 name c;
a - -b -> 0-1 name a;2-3 Minus;4-5 Minus;5-6 name b;
'it''s' \"a\"\"b\" -> 0-7 text it's;8-14 quoted a\"b;
'' \"\" '--' -> 0-2 text ;3-5 quoted ;6-10 text --;
'é' -- é~\"ü\" -> 0-4 text é;11-15 quoted ü;
a<=-1<>b!=c; -> 0-1 name a;1-3 AtMost;3-4 Minus;4-5 number 1;5-7 Differs;7-8 name b;8-10 Differs;10-11 name c;11-12 Semicolon;
t.c>=007 -> 0-1 name t;1-2 Dot;2-3 name c;3-5 AtLeast;5-8 number 7;
170141183460469231731687303715884105727 -> 0-39 number 170141183460469231731687303715884105727;
170141183460469231731687303715884105728 -> BadNumber(0)
0000000000000000000000000000000000000001 -> BadNumber(0)
1 + 2a -> BadNumber(4)
2.50 007.1 0.000000001 -> 0-4 decimal 250 2;5-10 decimal 71 1;11-22 decimal 1 9;
t.2 2. .5 1.a 1.--b~ -> 0-1 name t;1-2 Dot;2-3 number 2;4-5 number 2;5-6 Dot;7-8 Dot;8-9 number 5;10-11 number 1;11-12 Dot;12-13 name a;14-15 number 1;15-16 Dot;
2.5.6 -> 0-3 decimal 25 1;3-4 Dot;4-5 number 6;
170141183460469231731687303715.884105727 -> 0-40 decimal 170141183460469231731687303715884105727 9;
170141183460469231731687303715.884105728 -> BadNumber(0)
000000000000000000000000000000000000000.1 -> BadNumber(0)
1 + 0.0000000001 -> BadNumber(4)
1 + 2.5a -> BadNumber(4)
1 + 2.5_ -> BadNumber(4)
1 + 2_ -> BadNumber(4)
a ! b -> BadChar(2)
a é -> BadChar(2)
SELECT id ? 1 FROM orders -> BadChar(10)
SELECT 'a -> OpenText(7)
x 'a'' -> OpenText(2)
x \"a -> OpenText(2)
? 'a -> BadChar(0)";

const COUNTS: &str = "«4096 a »-- none -> Ok(4096)
«4096 a »b -> Err(TooManyTokens)
«4096 a »'open -> Err(TooManyTokens)
«4096 a »1a -> Err(TooManyTokens)
«4096 a »> -> Err(TooManyTokens)
«4096 a »! -> Err(BadChar(8192))";

#[test]
fn tokens_of_texts(rt: HostRuntime) -> Result<(), Fail> {
    judge::<Tokens>(&rt, rt.alloc(), TOKENS)
}

#[test]
fn limit_of_4096_tokens(rt: HostRuntime) -> Result<(), Fail> {
    judge::<Count>(&rt, rt.alloc(), COUNTS)
}
