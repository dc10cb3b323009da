// Worked cases of what the rules take as given.
ghost use Rattle.yaml_text.specs.Cases as cases;

/// Which characters a text may have, what it is of its bytes, where it ends, and which lines it has, at the edges of each.
pub fn worked_cases()
    ensures characters { cases.CharacterCases }
    ensures source { cases.SourceCases }
    ensures body { cases.BodyCases }
    ensures line { cases.LineCases }
{}
