// A fitter's sheet as spreadsheets write it, made into the form that the strict reader asks, and what was changed in it.
#![tactic(auto)]

ghost use Rattle.std.specs.Prelude.{◌≡◌};
ghost use Rattle.records.specs.Write.{laid_over};
ghost use Rattle.cleaning.specs.Clean.{changes_of};
ghost use Rattle.tidying.specs.Tidy.{bad_line_of, laid_answer, judged_answer, judged_out, tidy_answer, tidy_out};

use cleaning::{Tidied, changed_in, clean};
use sheet::{SheetError, read_sheet};
use text::put_text;

// Why a sheet is not tidied: the output is too short, with the bytes needed; or the first line that cannot be tidied.
#[derive(Clone, Copy)]
pub enum TidyError {
    OutShort(usize),
    BadLine(usize),
}

// The first bad line of a sheet, from 1; 0 where no line is bad.
#[tactic(auto, unfolding(crate::specs::Tidy::bad_line_of))]
fn bad_line(bytes: &[u8]) -> usize
    ensures { result ≡ bad_line_of bytes.now }
{
    let r = read_sheet(bytes, 1, 1, [0u64; 32], 1);
    match r.answer {
        Ok(()) => 0,
        Err(SheetError::BadLine(line)) => line,
        Err(SheetError::Record(_)) => 0,
    }
}

// The sheet laid into the output, where there is room for it.
fn lay(file: &[u8], out: &mut [u8]) -> Result<usize, TidyError>
    ensures answer { result ≡ laid_answer file.now out.old }
    ensures out { out.new ≡ laid_over file.now out.old }
{
    let need = file.len();
    if out.len() < need {
        return Err(TidyError::OutShort(need));
    }
    put_text(out, 0, file);
    Ok(need)
}

// The sheet in its own form, judged by the strict reader, and laid into the output where it is good.
fn judge(file: &[u8], out: &mut [u8]) -> Result<usize, TidyError>
    ensures answer { result ≡ judged_answer file.now out.old }
    ensures out { out.new ≡ judged_out file.now out.old }
{
    let bad = bad_line(file);
    if bad != 0 {
        return Err(TidyError::BadLine(bad));
    }
    lay(file, out)
}

// Tidies a sheet: 17 with the first line that cannot be tidied, then 13.
pub fn tidy(sheet: &[u8], out: &mut [u8]) -> Result<usize, TidyError>
    ensures answer { result ≡ tidy_answer sheet.now out.old }
    ensures out { out.new ≡ tidy_out sheet.now out.old }
{
    let mut file = [0u8; 4096];
    let n = clean(sheet, &mut file);
    judge(&file[..n], out)
}

// How often tidying makes a change, by its number, and in which line first: 1 the mark of the byte order dropped, 2 a semicolon or tab to a comma,
// 3 LF to CR LF, 4 a quote dropped, 5 a blank dropped, 6 a blank mark to 0, 7 an x to 1, 8 the last line's end added.
pub fn changes_made(sheet: &[u8], kind: u8) -> Tidied
    ensures { result ≡ changes_of sheet.now kind }
{
    changed_in(sheet, kind)
}
