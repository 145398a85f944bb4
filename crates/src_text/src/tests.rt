use super::*;
use std::alloc::Global;
use std::test::Fail;

// A type that holds itself through both containers.
#[derive(Debug, Drop, PartialEq, Eq)]
enum Nest {
    Name(Text),
    Many(Seq<Nest>),
    One(Boxed<Nest>),
}

// How many names stand in a nest, or 1000 where they are more.
fn names_in(nest: &Nest) -> u32 {
    match nest {
        Nest::Name(_) => 1,
        Nest::Many(nests) => {
            let mut count = 0u32;
            for nest in nests.as_slice() {
                count = count.saturating_add(names_in(nest));
            }
            count
        }
        Nest::One(nest) => names_in(nest.get()),
    }
}

fn named(alloc: Global, name: &str) -> Mem<Nest> {
    Ok(Nest::Name(Text::from_str(alloc, name)?))
}

fn three_names(alloc: Global) -> Mem<Nest> {
    let mut inner = Seq::new(alloc);
    inner.push(named(alloc, "b")?)?;
    inner.push(named(alloc, "c")?)?;
    let mut outer = Seq::new(alloc);
    outer.push(named(alloc, "a")?)?;
    outer.push(Nest::One(Boxed::new(alloc, Nest::Many(inner))?))?;
    Ok(Nest::Many(outer))
}

#[test]
fn a_type_holds_itself(rt: HostRuntime) -> Result<(), Fail> {
    let alloc = rt.alloc();
    assert_eq!(rt; names_in(&three_names(alloc)?), 3);
    assert_eq!(rt; three_names(alloc)?, three_names(alloc)?);
    assert_ne!(rt; three_names(alloc)?, named(alloc, "a")?);
    Ok(())
}

#[test]
fn places_are_lines_and_utf16_units(rt: HostRuntime) -> Result<(), Fail> {
    let alloc = rt.alloc();
    let rows = [
        ("", 0, (0, 0)),
        ("", 7, (0, 0)),
        ("a😀b", 0, (0, 0)),
        ("a😀b", 1, (0, 1)),
        ("a😀b", 3, (0, 1)),
        ("a😀b", 5, (0, 3)),
        ("a😀b", 6, (0, 4)),
        ("a😀b", 99, (0, 4)),
        ("é€x", 1, (0, 0)),
        ("é€x", 2, (0, 1)),
        ("é€x", 4, (0, 1)),
        ("é€x", 5, (0, 2)),
        ("a\nb", 1, (0, 1)),
        ("a\nb", 2, (1, 0)),
        ("a\r\nb", 1, (0, 1)),
        ("a\r\nb", 2, (0, 1)),
        ("a\r\nb", 3, (1, 0)),
        ("a\rb\r\r\nc", 2, (1, 0)),
        ("a\rb\r\r\nc", 4, (2, 0)),
        ("a\rb\r\r\nc", 5, (2, 0)),
        ("a\rb\r\r\nc", 6, (3, 0)),
        ("a\n", 2, (1, 0)),
    ];
    for (text, byte, place) in rows {
        let index = line_index(alloc, text)?;
        assert_eq!(rt;
            index.place_of(text, byte),
            place,
            "byte {byte} of {text:?}"
        );
    }
    Ok(())
}

#[test]
fn texts_and_lists_keep_what_they_are_given(rt: HostRuntime) -> Result<(), Fail> {
    let alloc = rt.alloc();
    let mut text = Text::new(alloc);
    text.push_str("sé")?;
    text.push_str("p")?;
    assert_eq!(rt; text.as_str(), "sép");
    let copy = text.clone()?;
    assert_eq!(rt; Text::from_string(copy.into_string()), text);
    assert!(rt; Text::from_str(alloc, "sep")? < text);
    let list = Seq::from_vec(vec![in alloc; 1, 2]?);
    let mut longer = list.clone()?;
    longer.push(3)?;
    assert_eq!(rt; longer.len(), 3);
    assert_eq!(rt; longer.get(2).copied(), Some(3));
    assert_eq!(rt; longer, Seq::from_slice(alloc, &[1, 2, 3])?);
    assert!(rt; list < longer);
    assert!(rt; !list.is_empty());
    assert_eq!(rt; list.into_vec().as_slice(), [1, 2].as_slice());
    assert_eq!(rt; Boxed::new(alloc, 7)?.into_inner(), 7);
    Ok(())
}
