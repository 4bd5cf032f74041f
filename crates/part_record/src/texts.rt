//! What is told of the texts that a part left, and the lines that tell it.
ghost use Rattle.std.specs.Prelude.{◌≡◌, ◌≢◌, List, ℕ, [], ◌++◌, IfNone, IfSome, OnOk, Some};
ghost use Rattle.octet_sums.specs.declared.fletcher.sum.OctetSum.{OctetSum as ASum};
ghost use Rattle.part_record.specs.Outputs.{IsTold};
ghost use Rattle.part_record.specs.Texts.{AreTexts, text_line, text_lines};
ghost use Rattle.part_record.specs.declared.texts.ToldTexts.{ToldTexts as SomeTexts};

use crate::outputs::{put_number, sum_told};
use crate::steps::behind;
use octet_sums::fletcher::OctetSum;
use std::alloc::AllocError;

/// What is told of the texts that a part left: the number and the sums of the octets of each, and nothing of one that it didn't
/// leave.
#[derive(Clone, Copy, Debug, Default, PartialEq, Eq)]
pub struct ToldTexts {
    /// Of its tables at the end.
    pub tables: Option<OctetSum>,
    /// Of its counts.
    pub summary: Option<OctetSum>,
}

/// Puts what is told of the texts that a part left behind the text of its record.
pub fn put_texts(text: &mut Vec<u8>, texts: ToldTexts) -> Result<(), AllocError>
    ensures { OnOk result (text.new.items ≡ text.old.items ++ text_lines texts) }
{
    put_text(text, b"text tables ", texts.tables)?;
    put_text(text, b"text summary ", texts.summary)
}

/// Puts the line of a text that a part left behind a text, where it left one.
fn put_text(text: &mut Vec<u8>, word: &[u8], told: Option<OctetSum>) -> Result<(), AllocError>
    ensures { OnOk result (text.new.items ≡ text.old.items ++ text_line word.now told) }
{
    let Some(sum) = told else {
        return Ok(());
    };
    text.extend_from_slice(word)?;
    put_number(text, sum.octets, b' ')?;
    put_number(text, sum.first, b' ')?;
    put_number(text, sum.second, b'\n')
}

/// What is told on the line of this word, where a text begins with one, and what stands behind it.
fn text_behind<'a>(text: &'a str, word: &str) -> (Option<OctetSum>, &'a str)
    ensures read { text.now ≡ text_line word.now result.0 ++ result.1.now }
    ensures told { IfSome result.0 IsTold }
    ensures none { IfNone result.0 ((s : ASum) (rest : List ℕ) → IsTold s → text.now ≢ text_line word.now (Some s) ++ rest) }
{
    let Some(told) = behind(text, word) else {
        return (None, text);
    };
    match sum_told(told) {
        Some(found) => {
            let sum = found.0;
            (Some(sum), found.1)
        }
        None => (None, text),
    }
}

/// What a text begins with of lines that tell of texts that a part left, and what stands behind them.
pub(crate) fn texts_of(text: &str) -> (ToldTexts, &str)
    ensures read { text.now ≡ text_lines result.0 ++ result.1.now }
    ensures told { AreTexts result.0 }
    ensures all { (texts : SomeTexts) → AreTexts texts → text.now ≡ text_lines texts → (result.0 ≡ texts) × (result.1.now ≡ []) }
{
    let (tables, counted) = text_behind(text, "text tables ");
    let (summary, rest) = text_behind(counted, "text summary ");
    (ToldTexts { tables, summary }, rest)
}
