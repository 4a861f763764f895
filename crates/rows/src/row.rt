// One row: the words of one place, the count of its literals first, then their
// codes by rising code, then zeros.
ghost use Rattle.std.specs.Prelude.{◌≡◌, ℕ, ◌+◌, ◌-◌, ◌/◌, ◌<◌, ◌≤◌, length, IfErr, IfOk, MatchOption, MatchResult, is_ok, slice_index};
ghost use Rattle.std.specs.List.{insert};
ghost use Rattle.shelf.specs.Answers.{fitted};
ghost use Rattle.shelf.specs.Literals.{Rising, among, put, stands, variable as variable_of};
ghost use Rattle.rows.specs.Finding.{Gap};
ghost use Rattle.shelf.specs.Telling.{granted};
ghost use Rattle.rows.specs.Rows.{codes_of};

use shelf::literal::Literal;
use shelf::refusal::Refusal;

// The words of one place, of which the count does not pass the end.
#[derive(Clone, Copy)]
pub(crate) struct Row<'a> {
    pub(crate) words: &'a [u32],
    ghost counted: { slice_index words.now 0 < length words.now },
}

impl<'a> Row<'a> {
    // The row in these words, unless its count passes their end.
    pub(crate) fn over(words: &'a [u32]) -> Option<Row<'a>>
        ensures { MatchOption result (length words.now ≤ slice_index words.now 0) (λ row. row.words.now ≡ words.now) }
    {
        if *words.first()? as usize >= words.len() {
            return None;
        }
        Some(Row { words })
    }

    // The codes, as many as the count says.
    #[tactic(auto, unfolding(crate::specs::Rows::codes_of))]
    pub(crate) fn codes(&self) -> &'a [u32]
        ensures codes { result.now ≡ codes_of self.now.words.now }
        ensures count { length result.now ≡ slice_index self.now.words.now 0 }
    {
        &self.words[1..self.words[0] as usize + 1]
    }

    // Whether the row has the literal. Never inlined: the search compares many codes at a time
    // and is long code, so that with it a caller is too long to be inlined itself.
    #[inline(never)]
    #[tactic(auto, using(crate::proofs::Puts::among_any))]
    pub(crate) fn has(&self, literal: Literal) -> bool
        ensures { result ≡ among literal.code (codes_of self.now.words.now) }
    {
        self.codes().contains(&literal.code)
    }

    // Where a code of the literal's variable stands, or else where the literal goes in.
    fn search(&self, literal: Literal) -> Result<usize, usize>
        ensures within { let cs = codes_of self.now.words.now in MatchResult result (λ k. k < length cs) (λ k. k ≤ length cs) }
        ensures found { let cs = codes_of self.now.words.now in IfOk result (λ k. variable_of (slice_index cs k) ≡ variable_of literal.code) }
        ensures stands { let cs = codes_of self.now.words.now in (V : ℕ) → Rising V 0 cs → is_ok result ≡ stands (variable_of literal.code) cs }
        ensures goes { let cs = codes_of self.now.words.now in (V : ℕ) → Rising V 0 cs → IfErr result (λ k. put literal.code cs ≡ insert cs k literal.code) }
    {
        self.codes()
            .binary_search_by_key(&literal.variable(), |&code| Literal { code }.variable())
    }

    // Where among the row's codes, from 0, the literal may go in.
    pub(crate) fn gap(&self, literal: Literal) -> Result<usize, Refusal>
        ensures answer { (V : ℕ) → Rising V 0 (codes_of self.now.words.now) → granted result ≡ fitted (length self.now.words.now - 1) (codes_of self.now.words.now) literal.code }
        ensures gap { IfOk result (λ k. Gap self.now.words.now literal.code k) }
    {
        match self.search(literal) {
            Ok(_) => Err(Refusal::VariableStands),
            Err(_) if self.codes().len() + 1 == self.words.len() => Err(Refusal::ClauseFull),
            Err(k) => Ok(k),
        }
    }
}

// Puts the literal in at the gap k, and moves the codes from there on up by one. Over
// the words themselves, since a `Row` only reads them.
pub(crate) fn slip(row: &mut [u32], k: usize, literal: Literal)
    requires gap { Gap row.old literal.code k }
    requires short { length row.old ≤ 256 }
    ensures count { slice_index row.new 0 ≡ slice_index row.old 0 + 1 }
    ensures codes { codes_of row.new ≡ insert (codes_of row.old) k literal.code }
    ensures beyond { (j : ℕ) → slice_index row.old 0 + 1 < j → slice_index row.new j ≡ slice_index row.old j }
{
    let count = row[0] as usize;
    row[k + 1..count + 2].rotate_right(1);
    row[k + 1] = literal.code;
    row[0] = count as u32 + 1;
}
