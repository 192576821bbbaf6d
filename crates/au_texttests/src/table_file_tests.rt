//! Table files, and what they hold or why they are refused.
use crate::cases::{Call, file_bytes, judge};
use au_blocks::{Alternative, Block, Blocks, Scalar, Table, read_table};
use std::alloc::{AllocError, Global};
use std::test::Fail;

// The columns, and behind each `|` a block: its alternatives, the guess with a `*`, and a `?` where it is optional.
struct TableFile;

impl Call for TableFile {
    fn outcome(alloc: Global, given: &str) -> Result<String, Fail> {
        let bytes = file_bytes(alloc, given)?;
        match read_table(alloc, bytes.as_slice()) {
            Ok(table) => Ok(table_text(alloc, &table)?),
            Err(fault) => Ok(format!(in alloc; "{fault:?}")?),
        }
    }
}

fn table_text(alloc: Global, table: &Table) -> Result<String, AllocError> {
    let mut text = String::new(alloc);
    for column in table.columns() {
        let kind = column.kind;
        text.push_str(column.name.as_str())?;
        text.push_str(format!(in alloc; ":{kind:?} ")?.as_str())?;
    }
    push_blocks(alloc, &mut text, &table.blocks())?;
    Ok(text)
}

fn push_blocks(alloc: Global, text: &mut String, blocks: &Blocks<'_>) -> Result<(), AllocError> {
    for place in 0..blocks.len() {
        push_block(alloc, text, &blocks.get(place))?;
    }
    Ok(())
}

fn push_block(alloc: Global, text: &mut String, block: &Block<'_>) -> Result<(), AllocError> {
    let alternatives = block.alternatives();
    for place in 0..alternatives.len() {
        text.push_str(if place == 0 { "|" } else { "/" })?;
        if block.guess() == Some(place) {
            text.push_str("*")?;
        }
        push_alternative(alloc, text, &alternatives.get(place))?;
    }
    text.push_str(match (block.optional(), block.guess()) {
        (true, None) => "?*",
        (true, Some(_)) => "?",
        (false, _) => "",
    })
}

// The text of a value.
fn push_scalar(alloc: Global, text: &mut String, value: Scalar<'_>) -> Result<(), AllocError> {
    match value {
        Scalar::Int(n) => text.push_str(format!(in alloc; "{n}")?.as_str()),
        Scalar::Text(word) => text.push_str(word.as_str()),
        Scalar::Flag(flag) => text.push_str(if flag { "true" } else { "false" }),
    }
}

// A value, or `lo..guess..hi`.
fn push_cell(
    alloc: Global,
    text: &mut String,
    lo: Scalar<'_>,
    guess: Scalar<'_>,
    hi: Scalar<'_>,
) -> Result<(), AllocError> {
    let certain = lo.compare(&hi).is_eq();
    if !certain {
        push_scalar(alloc, text, lo)?;
        text.push_str("..")?;
    }
    push_scalar(alloc, text, guess)?;
    if !certain {
        text.push_str("..")?;
        push_scalar(alloc, text, hi)?;
    }
    Ok(())
}

fn push_alternative(
    alloc: Global,
    text: &mut String,
    alternative: &Alternative<'_>,
) -> Result<(), AllocError> {
    for at in 0..alternative.width() {
        if at > 0 {
            text.push_str(",")?;
        }
        push_cell(
            alloc,
            text,
            alternative.lo(at),
            alternative.sg(at),
            alternative.hi(at),
        )?;
    }
    let times = alternative.times();
    let copies = (times.least(), times.guess(), times.most());
    if copies == (1, 1, 1) {
        return Ok(());
    }
    let (least, guess, most) = copies;
    text.push_str(format!(in alloc; " x{least}..{guess}..{most}")?.as_str())
}

const TABLES: &str =
    "_block,_role,id:int,city:text,n:int~a,guess,1,Oslo,10~a,alt,1,Bergen,12~b,guess,2,Bergen,5~c,guess,3,Oslo,7~c,absent,,,~ -> id:Int city:Text n:Int |*1,Oslo,10/1,Bergen,12|*2,Bergen,5|*3,Oslo,7?
id:int,city:text,amount:int~ -> id:Int city:Text amount:Int 
_block,_role,id,city~d,absent-guess,,~d,alt,4,Moss~ -> id:Int city:Text |4,Moss?*
\u{FEFF}id,Order Date,city^~1,2021-06-20,\"Oslo, Nord\"^~ -> id:Int Order Date:Text city:Text |*1,2021-06-20,Oslo, Nord
id,city~1,Os -> id:Int city:Text |*1,Os
n:int~170141183460469231731687303715884105727~ -> n:Int |*170141183460469231731687303715884105727
n:int~-170141183460469231731687303715884105728~ -> n:Int |*-170141183460469231731687303715884105728
n~170141183460469231731687303715884105728~ -> n:Text |*170141183460469231731687303715884105728
t~\"a,b\"~\"c~d\"~\"e\"\"f\"~ -> t:Text |*a,b|*c~d|*e\"f
f:flag~true~false~ -> f:Flag |*true|*false
a,~1,x~ -> a:Int col2:Text |*1,x
x:y~1~ -> x:y:Int |*1
:int,b:c:text~1,2~ -> col1:Int b:c:Text |*1,2
x~1~z~ -> x:Text |*1|*z
x~1~\"\"~ -> x:Text |*1|*
x,y~«120 1,2~»1,z~ -> x:Int y:Text «120 |*1,2»|*1,z
_block,_role,x~a,guess,1~a,absent,~ -> x:Int |*1?
_block,_role,x~a,guess,1~b,guess,2~a,alt,3~ -> x:Int |*1/3|*2
_block,_role,x~,guess,1~A,guess,2~a,guess,3~ -> x:Int |*1|*2|*3
_block,_role~a,guess~a,alt~ -> |*/
_block,_role,_times,id:int,amount:int~a,guess,2..3..5,1,8..10..12~a,alt,1,1,20~b,guess,1,2,-3..-1..4~b,absent,,,~ -> id:Int amount:Int |*1,8..10..12 x2..3..5/1,20|*2,-3..-1..4?
_block,_role,_times,x~a,guess,1000000000000,1~a,alt,0000000000007,2~ -> x:Int |*1 x1000000000000..1000000000000..1000000000000/2 x7..7..7
_block,_role,_times,x:dec2~a,guess,0..0..1,-0.05..0..2.5~ -> x:Dec(2) |*-5..0..250 x0..0..1
_block,_role,_times,x:text~a,guess,1,1..2..3~ -> x:Text |*1..2..3
_block,_role,_times~a,guess,3~a,absent,~ -> |* x3..3..3?
_block,_times,_role~a,1,guess~ -> _block:Text _times:Int _role:Text |*a,1,guess
_block,_role,x,_times:int~a,guess,1,2~ -> x:Int _times:Int |*1,2
x:dec2,y:dec9~2.5,-1~0,0.000000001~ -> x:Dec(2) y:Dec(9) |*250,-1000000000|*0,1
_Block,_role,x~a,guess,1~ -> _Block:Text _role:Text x:Int |*a,guess,1
«128 n»:int~ -> nnnnnnnnnnnnnnnnnnnnnnnnnnnnnnnnnnnnnnnnnnnnnnnnnnnnnnnnnnnnnnnnnnnnnnnnnnnnnnnnnnnnnnnnnnnnnnnnnnnnnnnnnnnnnnnnnnnnnnnnnnnnnnnn:Int 
_block,_role«64 ,»~ \
     -> col1:Text col2:Text col3:Text col4:Text col5:Text col6:Text col7:Text col8:Text col9:Text col10:Text \
     col11:Text col12:Text col13:Text col14:Text col15:Text col16:Text col17:Text col18:Text col19:Text col20:Text \
     col21:Text col22:Text col23:Text col24:Text col25:Text col26:Text col27:Text col28:Text col29:Text col30:Text \
     col31:Text col32:Text col33:Text col34:Text col35:Text col36:Text col37:Text col38:Text col39:Text col40:Text \
     col41:Text col42:Text col43:Text col44:Text col45:Text col46:Text col47:Text col48:Text col49:Text col50:Text \
     col51:Text col52:Text col53:Text col54:Text col55:Text col56:Text col57:Text col58:Text col59:Text col60:Text \
     col61:Text col62:Text col63:Text col64:Text ";

const DEFECTS: &str = " -> NoHeader
\u{FEFF}^~~ -> NoHeader
_block,_role,x:int~a,guess,1~a,guess,2~ -> TwoGuesses(0)
_block,_role,x:int~a,alt,1~ -> NoGuess(0)
_block,_role,x:int~a,absent-guess,~ -> OnlyAbsent(0)
_block,_role,x:int~a,guess,1~a,absent,~a,absent,~ -> TwoAbsent(0)
_block,_role,x:int~a,absent,1~ -> AbsentWithValues(1)
_block,_role,x:int~a,maybe,1~ -> BadRole(1)
_block,_role,x:int~a,Guess,1~ -> BadRole(1)
id,city~1~ -> WrongWidth(1)
n:int~170141183460469231731687303715884105728~ -> BadField(1, 0)
f:flag~TRUE~ -> BadField(1, 0)
a,b:int~1,2~x,y~ -> BadField(2, 1)
_block,_role,x:y~ -> UnknownKind(0)
_block,_role,a,x:~ -> UnknownKind(1)
a,b,A~ -> SameName(0, 2)
COL2,~ -> SameName(0, 1)
a,b,B,a~ -> SameName(1, 2)
a,b:int,a~1,x,1~ -> SameName(0, 2)
a:int~x~1,2~ -> BadField(1, 0)
_block,_role,x:int~a,alt,1~b,maybe,1~ -> BadRole(2)
_block,_role,x:int~a,absent,1~a,guess,z~ -> AbsentWithValues(1)
_block,_role,x:int~a,maybe~ -> WrongWidth(1)
_block,_role,x:int~a,absent,~b,guess,1~b,guess,2~ -> NoGuess(0)
_block,_role,x:int~a,guess,1~b,absent-guess,~b,absent,~ -> OnlyAbsent(1)
_block,_role,x:int~a,guess,1~a,absent-guess,~a,absent,~ -> TwoGuesses(0)
_block,_role,_times,x:int~a,guess,3..2..5,1~ -> BadTimes(1)
_block,_role,_times,x:int~a,guess,-1,1~ -> BadTimes(1)
_block,_role,_times,x:int~a,guess,,1~ -> BadTimes(1)
_block,_role,_times,x:int~a,guess,1..2,1~ -> BadTimes(1)
_block,_role,_times,x:int~a,guess,1000000000001,1~ -> BadTimes(1)
_block,_role,_times,x:int~a,guess,00000000000001,1~ -> BadTimes(1)
_block,_role,_times,x:int~a,guess,1,5..4..6~ -> BadField(1, 0)
_block,_role,_times,x:int~a,guess,1,1..2~ -> BadField(1, 0)
_block,_role,_times,x:int~a,absent,1,~ -> AbsentWithValues(1)
_block,_role,_times,x:int~a,maybe,z,z~ -> BadRole(1)
_block,_role,_times,x:int~a,guess,z,z~ -> BadTimes(1)
_block,_role,_times«65 ,» -> TooManyColumns
_block,_role,x:int~a,guess,1..2..3~ -> BadField(1, 0)
p:dec2~2.505~ -> BadField(1, 0)
_block,_role,p:dec0~ -> UnknownKind(0)
_block,_role,p:dec10~ -> UnknownKind(0)
a,A~x~1,#~ -> NotText(2)
a,«129 n»:int~ -> BadColumnName(1)
_block,_role«65 ,» -> TooManyColumns";

// A file that is cut short, judged as any other.
const CUT_SHORT: &str = "_block -> _block:Text 
_block,_role -> 
_block,_role,id: -> UnknownKind(0)
_block,_role,id:int,city:text,n:int -> id:Int city:Text n:Int 
_block,_role,id:int,city:text,n:int~a,gue -> WrongWidth(1)
_block,_role,id:int,city:text,n:int~a,guess,1,Oslo,10~c,guess,3,Oslo,7~ -> id:Int city:Text n:Int |*1,Oslo,10|*3,Oslo,7
_block,_role,id:int,city:text,n:int~c,guess,3,Oslo,7~c,absent -> WrongWidth(2)
_block,_role,id:int,city:text,n:int~c,guess,3,Oslo,7~c,absent,,, -> id:Int city:Text n:Int |*3,Oslo,7?";

#[test]
fn tables_of_files(rt: HostRuntime) -> Result<(), Fail> {
    judge::<TableFile>(&rt, rt.alloc(), TABLES)
}

#[test]
fn first_defects_of_files(rt: HostRuntime) -> Result<(), Fail> {
    judge::<TableFile>(&rt, rt.alloc(), DEFECTS)
}

#[test]
fn files_that_are_cut_short(rt: HostRuntime) -> Result<(), Fail> {
    judge::<TableFile>(&rt, rt.alloc(), CUT_SHORT)
}
