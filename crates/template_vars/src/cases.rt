// Worked cases of merges, texts, keys and items.
ghost use Rattle.template_vars.specs.Cases as cases;

/// Mappings, texts, keys and items of `vars`, each beside what it comes to.
pub fn worked_cases()
    ensures merge { cases.MergeCases }
    ensures text { cases.TextCases }
    ensures key { cases.KeyCases }
    ensures item { cases.ItemCases }
{}
