// Worked cases of lines, configs and urls.
ghost use Rattle.dvc_config.specs.Cases as cases;

/// Lines, texts and remotes, each beside what it is, what it says or what its url is.
pub fn worked_cases()
    ensures line { cases.LineCases }
    ensures config { cases.ConfigCases }
    ensures url { cases.UrlCases }
{}
