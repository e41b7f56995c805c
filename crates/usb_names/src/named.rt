//! Tables of names.
ghost use Rattle.std.specs.Prelude.{◌≡◌, IsTrue, find, map, option_map};
ghost use Rattle.std.specs.Option.{option_copied};
ghost use Rattle.usb_names.specs.Named.{have_names, name_where, row_of};

use crate::word::Word;

/// A code, or several, and the name.
pub(crate) type Named<Code> = (Code, &'static str);

/// A table of names by their codes.
#[derive(Drop)]
pub struct Names<Code: 'static> {
    pub(crate) rows: &'static [Named<Code>],
    pub ghost names: { IsTrue (have_names (map row_of rows.now)) },
}

impl<Code: Copy + PartialEq> Names<Code> {
    /// The name in the first row that has the code.
    #[tactic(auto, using(crate::proofs::RowLemmas::find_mapped))]
    pub fn name(&self, code: Code) -> Option<Word>
        ensures { option_map (λ name. name.text.now) result ≡ name_where (λ its. Code.eq its code) (map row_of self.now.rows.now) }
    {
        let row = find_row(self.rows, code)?;
        Some(Word { text: row.1 })
    }
}

/// The first row that has the code.
fn find_row<Code: Copy + PartialEq>(rows: &[Named<Code>], code: Code) -> Option<&Named<Code>>
    ensures { option_copied result ≡ find (λ row. Code.eq (row_of row).0 code) rows.now }
{
    rows.iter().find(|row| row.0 == code)
}
