// Worked cases of what the rules of scalars take as given.
ghost use Rattle.yaml_scalars.specs.Cases as cases;

/// Where a plain scalar begins and ends and what it stands for, what escapes stand for, and how deep a block scalar's lines are,
/// at the edges of each.
pub fn worked_cases()
    ensures begin { cases.BeginCases }
    ensures part { cases.PartCases }
    ensures letter { cases.LetterCases }
    ensures number { cases.NumberCases }
    ensures word { cases.WordCases }
    ensures whole { cases.WholeCases }
    ensures decimal { cases.DecimalCases }
    ensures margin { cases.MarginCases }
{}
