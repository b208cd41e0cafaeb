//! A law of footers, for the crates above. The function does nothing; what it promises is the law.

ghost use Rattle.std.specs.Prelude.{◌≡◌, ℕ, List};
ghost use Rattle.dk_pqmodel.specs.Footer.{Footer};
ghost use Rattle.dk_pqmodel.specs.FooterBytes.{HasFooter};

/// A file has at most one footer.
pub fn files_have_one_footer()
    ensures { (bytes : List ℕ) (footer other : Footer) → HasFooter bytes footer → HasFooter bytes other → footer ≡ other }
{}
