// Worked cases of canonical nodes, and of what keys lead to.
ghost use Rattle.params.specs.Cases as cases;

/// Numbers and nodes beside their canonical nodes, and keys beside what they lead to.
pub fn worked_cases()
    ensures number { cases.NumberCases }
    ensures node { cases.NodeCases }
    ensures lookup { cases.LookupCases }
{}
