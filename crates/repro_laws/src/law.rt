// Laws of the definitions: the headline of stages with a lock, and the choice.
ghost use Rattle.repro_laws.specs.Headline.{Headline, Front, SkipIsExact};
ghost use Rattle.repro_laws.specs.Sound.{StopsLeaveTruth, TurnsAreSound};

/// After any mix of skips and runs the outputs and the lock are those of running every stage anew, and the choices
/// are those that are due. Where only a front of the stages had their turns, they are a front of what is due.
pub fn headline_law()
    ensures headline { Headline }
    ensures front { Front }
{}

/// A stage is skipped exactly where nothing is forced, it doesn't always count as changed, and its entry in the lock is its present one.
pub fn choice_law()
    ensures { SkipIsExact }
{}

/// Every tree that a stop may leave at a sound moment has true entries alone in its lock.
pub fn stop_law()
    ensures { StopsLeaveTruth }
{}

/// Turns that begin at a sound moment have only sound moments, and end at one: where no two contents met share an MD5.
pub fn sound_law()
    ensures { TurnsAreSound }
{}
