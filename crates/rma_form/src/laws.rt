//! What canonical lines are, in other words.
ghost use Rattle.std.specs.Prelude.{◌≡◌, ℕ, List};
ghost use Rattle.rma_base.specs.declared.version.Version.{Version};
ghost use Rattle.rma_form.specs.Canonical.{canonical};
ghost use Rattle.rma_form.specs.Lines.{states};
ghost use Rattle.rma_form.specs.declared.event.Stated.{Stated};

/// What some line of a log of this version states, its canonical line states too; and no two such values have one canonical line.
pub fn canonical_lines_are_read_back()
    ensures read_back { (version : Version) (text : List ℕ) (stated : Stated) → states version text stated → states version (canonical stated) stated }
    ensures apart { (version : Version) (left right : List ℕ) (one other : Stated) → states version left one → states version right other → canonical one ≡ canonical other → one ≡ other }
{}
