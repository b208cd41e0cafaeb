//! A law of pages, for the crates above. The function does nothing; what it promises is the law.

ghost use Rattle.std.specs.Prelude.{◌≡◌, ℕ, List, Some};
ghost use Rattle.dk_grammar.specs.Grammar.{ReadsBy};
ghost use Rattle.dk_grammar.specs.PageHeaders.{part_meaning, SpellsHeader};
ghost use Rattle.dk_pqmodel.specs.Pages.{Page, page_at};
ghost use Rattle.dk_pages.specs.Spelled.{IsPageAt};
ghost use Rattle.dk_grammar.specs.Structs.{struct_at};

/// The fields that are read of a page header are spelled by the bytes taken, and what is spelled is read, whatever follows. A page
/// is found exactly where a header is spelled and a body of its size lies right behind it, and it is this one.
pub fn pages_are_read_by_their_grammar()
    ensures header { ReadsBy SpellsHeader (struct_at part_meaning) }
    ensures found { (bytes : List ℕ) (place : ℕ) (page : Page) → page_at bytes place ≡ Some page → IsPageAt bytes place page }
    ensures only { (bytes : List ℕ) (place : ℕ) (page : Page) → IsPageAt bytes place page → page_at bytes place ≡ Some page }
{}
