// Variables: merged, chosen by keys, hidden, and put into texts.
use dvc_base::{NoMemory, Node, Pair, PairList, Plain, Text};
use std::alloc::Global;
use template_vars::{
    Scope, TemplateFault, Variables, chosen, has_template, node_of_key, resolve, wanted_of,
    whole_key,
};

fn put(alloc: Global, pairs: &mut PairList, key: &str, value: Node) -> Result<(), NoMemory> {
    let key = Text::of(alloc, key)?;
    pairs.push(Pair { key, value })?;
    Ok(())
}

fn put_text(alloc: Global, pairs: &mut PairList, key: &str, text: &str) -> Result<(), NoMemory> {
    put(alloc, pairs, key, Node::Text(Text::of(alloc, text)?))
}

fn one(alloc: Global, key: &str, text: &str) -> Result<PairList, NoMemory> {
    let mut pairs = PairList::new(alloc);
    put_text(alloc, &mut pairs, key, text)?;
    Ok(pairs)
}

// `outer: {key: text}`
fn nested(alloc: Global, outer: &str, key: &str, text: &str) -> Result<PairList, NoMemory> {
    let mut pairs = PairList::new(alloc);
    put(
        alloc,
        &mut pairs,
        outer,
        Node::Pairs(one(alloc, key, text)?),
    )?;
    Ok(pairs)
}

fn merges(alloc: Global, vars: &mut Variables, made: Result<PairList, NoMemory>) -> bool {
    match made {
        Ok(pairs) => vars.merge(alloc, pairs.as_slice()).is_ok(),
        Err(_) => false,
    }
}

fn is_refused(
    alloc: Global,
    vars: &mut Variables,
    made: Result<PairList, NoMemory>,
    want: &str,
) -> bool {
    match made {
        Ok(pairs) => match vars.merge(alloc, pairs.as_slice()) {
            Err(TemplateFault::Schema { key }) => key.as_str() == want,
            _ => false,
        },
        Err(_) => false,
    }
}

// `a: {x: 1, y: 2}, item: far`
fn fill(alloc: Global, vars: &mut Variables) -> bool {
    merges(alloc, vars, nested(alloc, "a", "x", "1"))
        && merges(alloc, vars, nested(alloc, "a", "y", "2"))
        && merges(alloc, vars, one(alloc, "item", "far"))
        && is_refused(alloc, vars, nested(alloc, "a", "y", "3"), "y")
        && is_refused(alloc, vars, one(alloc, "a", "3"), "a")
}

fn is_text(made: Result<Text, TemplateFault>, want: &str) -> bool {
    match made {
        Ok(text) => text.as_str() == want,
        Err(_) => false,
    }
}

fn lacks(made: Result<Text, TemplateFault>, want: &str) -> bool {
    match made {
        Err(TemplateFault::NoVariable { key }) => key.as_str() == want,
        _ => false,
    }
}

fn is_mapping(alloc: Global, scope: &Scope, key: &str) -> bool {
    match node_of_key(alloc, scope, key) {
        Ok(Node::Pairs(pairs)) => pairs.as_slice().len() == 2,
        _ => false,
    }
}

fn fills_texts(alloc: Global, scope: &Scope) -> bool {
    is_text(resolve(alloc, scope, "${a.x}${ a.y }"), "12")
        && is_text(
            resolve(alloc, scope, "printf '\\${HOME} ${item.m}'"),
            "printf '${HOME} linear'",
        )
        && is_text(resolve(alloc, scope, "é $ ${a.x} ${é"), "é $ 1 ${é")
        && lacks(resolve(alloc, scope, "${a.x} ${b}"), "b")
        && is_mapping(alloc, scope, "a")
}

fn is_hidden(alloc: Global, vars: &Variables) -> bool {
    match nested(alloc, "item", "m", "linear") {
        Ok(pairs) => {
            let hiding = Variables::of_pairs(pairs);
            fills_texts(alloc, &Scope::of(&hiding, vars))
        }
        Err(_) => false,
    }
}

fn is_chosen(alloc: Global, vars: &Variables) -> bool {
    match chosen(alloc, "item,a,item", vars.pairs()) {
        Ok(pairs) => pairs.as_slice().len() == 2,
        Err(_) => false,
    }
}

fn is_copied(alloc: Global, vars: &Variables) -> bool {
    match vars.copy(alloc) {
        Ok(copy) => is_hidden(alloc, &copy) && is_chosen(alloc, &copy),
        Err(_) => false,
    }
}

fn is_wanted(item: &str, file: &str, keys: Option<&str>) -> bool {
    let wanted = wanted_of(item);
    wanted.file == file && wanted.keys == keys
}

#[test]
fn texts_are_filled_from_merged_variables(rt: HostRuntime) {
    let alloc = rt.alloc();
    let mut vars = Variables::new(alloc);
    assert!(rt; fill(alloc, &mut vars));
    assert!(rt; is_copied(alloc, &vars));
}

#[test]
fn keys_and_items_are_cut(rt: HostRuntime) {
    assert!(rt; whole_key("${ a }") == Some("a"));
    assert!(rt; whole_key("${a}b") == None);
    assert!(rt; has_template("a${"));
    assert!(rt; is_wanted("p.yaml:a,b", "p.yaml", Some("a,b")));
    assert!(rt; is_wanted("p.yaml", "p.yaml", None));
}
