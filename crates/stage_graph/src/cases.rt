// Worked cases of graphs.
ghost use Rattle.stage_graph.specs.Cases as cases;

/// Stages and track files, each beside their order or the first refusal.
pub fn worked_cases()
    ensures order { cases.OrderCases }
    ensures refused { cases.RefusedCases }
{}
