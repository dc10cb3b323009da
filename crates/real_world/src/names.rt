// Whether names are what those in a folder have to be.
ghost use Rattle.std.specs.Prelude.{◌≡◌, ◌↔◌, IsTrue};
ghost use Rattle.dvc_base.specs.Normal.{IsName, IsNormal};
ghost use Rattle.world_api.specs.Calls.{AreNames, are_rising};

use dvc_base::Text;

/// Whether each may be a component of a path, and they rise in the order of their bytes.
pub(crate) fn are_names(names: &[Text]) -> bool
    ensures names { IsTrue result ↔ AreNames names.now }
{
    each_is_name(names) && do_rise(names)
}

fn each_is_name(names: &[Text]) -> bool
    ensures names { IsTrue result ↔ IsNormal names.now }
{
    names.iter().all(is_name)
}

fn is_name(name: &Text) -> bool
    ensures name { IsTrue result ↔ IsName name.now }
{
    let text = name.as_str();
    let bytes = text.as_bytes();
    !bytes.is_empty()
        && text != "."
        && text != ".."
        && !bytes.contains(&b'/')
        && !bytes.contains(&0)
}

// No name stands twice.
fn do_rise(names: &[Text]) -> bool
    ensures rising { result ≡ are_rising names.now }
{
    names.is_sorted_by(|a, b| a.cmp(b).is_lt())
}
