// Laws of the book of a world in memory.
ghost use Rattle.sim_world.specs.Met.{BookIsOfMet, BookCovers};

/// The book has, under each digest, the first content of it that was met, and no others: those of the opening tree, of
/// edits, of what jobs were given and left, of what was published, and of what `meet` met. Where no two of them share an
/// MD5 it covers each file of the tree, and each value that was met, a folder by its listing and its files.
pub fn book_law()
    ensures book { BookIsOfMet }
    ensures covers { BookCovers }
{}
