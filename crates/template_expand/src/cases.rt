// Worked cases of `foreach`, `matrix` and whole files.
ghost use Rattle.template_expand.specs.Cases as cases;

/// Written stages beside what is made of them, and files beside the stages that they say.
pub fn worked_cases()
    ensures made { cases.MadeCases }
    ensures file { cases.FileCases }
{}
