// A law of the definitions.
ghost use Rattle.dvc_config.specs.Url.{LastUrlCounts};

/// The url of a remote is the last one that stands in its sections.
pub fn url_law()
    ensures last { LastUrlCounts }
{}
