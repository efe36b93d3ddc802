use kdb_base::{Activation, Activations, AuxList, Blob, Etype};
use std::alloc::Global;
use std::process::Abort;
use std::test::*;
use tagged_data::{
    StringAttribute, StringAttributes, TagFault, TagItem, TagList, activations, aux_keys, content,
    is_string_key, is_string_value, kinds, mkvno, modifier, push_activations, push_aux_keys,
    push_modifier, push_strings, pw_change, read_tagged, string_attributes, strings, tagged_len,
    write_tagged,
};

// 1700000000 is 6553f100 in hexadecimal.
const USER: &[u8] =
    b"\0\x03\0\x01\0\x04\0\xf1\x53\x65\0\x02\0\x08\0\xf1\x53\x65a@R\0\0\x08\0\x02\x01\0";

const MASTER: &[u8] =
    b"\0\x02\0\x09\0\x0c\x01\0\0\xf1\x53\x65\x02\0\x01\xf1\x53\x65\0\x0a\0\x11\x01\0\x12\0\x03\0xyz\x02\0\x11\0\x02\0uv";

fn check_list_before_more(rt: &impl Abort, alloc: Global) -> Result<(), Fail> {
    let (list, used) = read_tagged(alloc, b"\0\x01\0\x08\0\x02\x01\0more")?;
    assert_eq!(rt; used, 8);
    assert_eq!(rt; tagged_len(&list), 8);
    Ok(())
}

fn check_list(rt: &impl Abort, alloc: Global, bytes: &[u8]) -> Result<(), Fail> {
    let (list, used) = read_tagged(alloc, bytes)?;
    assert_eq!(rt; used, bytes.len());
    assert_eq!(rt; tagged_len(&list), bytes.len());
    let text = write_tagged(alloc, &list)?;
    assert_eq!(rt; text.as_slice(), bytes);
    Ok(())
}

#[test]
fn a_list_is_read_and_written(rt: HostRuntime) -> Result<(), Fail> {
    check_list_before_more(&rt, rt.alloc())?;
    check_list(&rt, rt.alloc(), USER)?;
    check_list(&rt, rt.alloc(), MASTER)?;
    check_list(&rt, rt.alloc(), b"\0\0")
}

#[test]
fn what_is_no_list(rt: HostRuntime) {
    let wrong: [&[u8]; 8] = [
        b"",
        b"\0",
        // An item is missing, and one is cut.
        b"\0\x01",
        b"\0\x01\0\x08\0\x02\x01",
        // Types that are equal, that fall, and that are no types.
        b"\0\x02\0\x08\0\0\0\x08\0\0",
        b"\0\x02\0\x08\0\0\0\x01\0\0",
        b"\0\x01\0\x03\0\0",
        b"\0\x01\0\x0c\0\0",
    ];
    for bytes in &wrong {
        assert_eq!(rt;
            read_tagged(rt.alloc(), bytes).err(),
            Some(TagFault::BadTagged),
            "{bytes:?}"
        );
    }
}

fn check_user(rt: &impl Abort, list: &TagList) -> Result<(), Fail> {
    assert_eq!(rt; pw_change(list), Some(1700000000));
    let (secs, name) = modifier(list).ok_or("no modifier")?;
    assert_eq!(rt; secs, 1700000000);
    assert_eq!(rt; name, b"a@R".as_slice());
    assert_eq!(rt; mkvno(list), Some(1));
    assert_eq!(rt; content(list, kinds::MKVNO), Some(b"\x01\0".as_slice()));
    Ok(())
}

/// A list with no activations and no auxiliary keys.
fn check_no_master(rt: &impl Abort, alloc: Global, list: &TagList) {
    assert_eq!(rt; activations(alloc, list).err(), Some(TagFault::BadTagged));
    assert_eq!(rt; aux_keys(alloc, list).err(), Some(TagFault::BadTagged));
}

#[test]
fn contents_of_a_user(rt: HostRuntime) -> Result<(), Fail> {
    let (list, _) = read_tagged(rt.alloc(), USER)?;
    check_no_master(&rt, rt.alloc(), &list);
    check_user(&rt, &list)
}

fn master_times(alloc: Global) -> Result<Activations, Fail> {
    let (list, _) = read_tagged(alloc, MASTER)?;
    Ok(activations(alloc, &list)?)
}

#[test]
fn activations_of_the_master_key(rt: HostRuntime) -> Result<(), Fail> {
    let times = master_times(rt.alloc())?;
    let wanted = [
        Activation {
            version: 1,
            secs: 1700000000,
        },
        Activation {
            version: 2,
            secs: 1700000001,
        },
    ];
    assert_eq!(rt; times.as_slice(), wanted.as_slice());
    Ok(())
}

fn master_keys(alloc: Global) -> Result<AuxList, Fail> {
    let (list, _) = read_tagged(alloc, MASTER)?;
    Ok(aux_keys(alloc, &list)?)
}

#[test]
fn auxiliary_keys_of_the_master_key(rt: HostRuntime) -> Result<(), Fail> {
    let keys = master_keys(rt.alloc())?;
    assert_eq!(rt; keys.as_slice().len(), 2);
    let key = keys.as_slice().first().ok_or("no key")?;
    assert_eq!(rt; (key.version, key.etype), (1, Etype::Aes256));
    assert_eq!(rt; key.wrapped.as_slice(), b"xyz".as_slice());
    Ok(())
}

#[test]
fn the_master_key_has_no_contents_of_a_user(rt: HostRuntime) -> Result<(), Fail> {
    let (list, _) = read_tagged(rt.alloc(), MASTER)?;
    assert_eq!(rt; pw_change(&list), None);
    assert!(rt; modifier(&list).is_none());
    assert_eq!(rt; mkvno(&list), None);
    Ok(())
}

const OTHER_FORMS: [&[u8]; 12] = [
    // A time of three bytes, and of five.
    b"\0\x01\0\x01\0\x03abc",
    b"\0\x01\0\x01\0\x05abcde",
    // A modifier with no zero byte, with two, and with bytes behind it.
    b"\0\x01\0\x02\0\x05abcde",
    b"\0\x01\0\x02\0\x07abcd\0e\0",
    b"\0\x01\0\x02\0\x07abcd\0ef",
    // Version 0, and a byte too many.
    b"\0\x01\0\x08\0\x02\0\0",
    b"\0\x01\0\x08\0\x03\x01\0\0",
    // Activations of version 0, of equal versions, and cut.
    b"\0\x01\0\x09\0\x06\0\0abcd",
    b"\0\x01\0\x09\0\x0c\x01\0abcd\x01\0abcd",
    b"\0\x01\0\x09\0\x07\x01\0abcd\x01",
    // Auxiliary keys of type 16, and with a length too great.
    b"\0\x01\0\x0a\0\x06\x01\0\x10\0\0\0",
    b"\0\x01\0\x0a\0\x06\x01\0\x11\0\x01\0",
];

/// A list of which no content is read.
fn check_other_form(rt: &impl Abort, alloc: Global, bytes: &[u8]) -> Result<(), Fail> {
    let (list, _) = read_tagged(alloc, bytes)?;
    assert_eq!(rt; pw_change(&list), None, "{bytes:?}");
    assert!(rt; modifier(&list).is_none(), "{bytes:?}");
    assert_eq!(rt; mkvno(&list), None, "{bytes:?}");
    assert_eq!(rt;
        activations(alloc, &list).err(),
        Some(TagFault::BadTagged),
        "{bytes:?}"
    );
    assert_eq!(rt;
        aux_keys(alloc, &list).err(),
        Some(TagFault::BadTagged),
        "{bytes:?}"
    );
    Ok(())
}

#[test]
fn contents_of_another_form(rt: HostRuntime) -> Result<(), Fail> {
    for bytes in OTHER_FORMS.iter() {
        check_other_form(&rt, rt.alloc(), bytes)?;
    }
    Ok(())
}

#[test]
fn a_modifier_is_written(rt: HostRuntime) -> Result<(), Fail> {
    let mut out = Vec::new(rt.alloc());
    push_modifier(&mut out, 1700000000, b"a@R")?;
    assert_eq!(rt; out.as_slice(), &USER[14..22]);
    Ok(())
}

#[test]
fn activations_are_written(rt: HostRuntime) -> Result<(), Fail> {
    let times = master_times(rt.alloc())?;
    let mut out = Vec::new(rt.alloc());
    push_activations(&mut out, &times)?;
    assert_eq!(rt; out.as_slice(), &MASTER[6..18]);
    Ok(())
}

#[test]
fn auxiliary_keys_are_written(rt: HostRuntime) -> Result<(), Fail> {
    let (list, _) = read_tagged(rt.alloc(), MASTER)?;
    let keys = aux_keys(rt.alloc(), &list)?;
    let mut out = Vec::new(rt.alloc());
    push_aux_keys(&mut out, &keys)?;
    assert_eq!(rt; out.as_slice(), &MASTER[22..39]);
    Ok(())
}

#[test]
fn a_list_of_items(rt: HostRuntime) -> Result<(), Fail> {
    let bytes = Blob::from_bytes(rt.alloc(), b"\x01\0")?;
    assert!(rt; kinds::is_kind(kinds::MKVNO) && bytes.len() == 2);
    let mut items = Vec::new(rt.alloc());
    items.push(TagItem {
        kind: kinds::MKVNO,
        bytes,
    })?;
    assert_eq!(rt; mkvno(&TagList::from_vec(items)), Some(1));
    Ok(())
}

// Two attributes: the second has no bytes in its value.
const STRINGS: &[u8] = b"\0\x01\0\x0b\0\x11pw_len\x0012 a\0x-.\0\0";

fn check_two(rt: &impl Abort, attributes: &[StringAttribute]) -> Result<(), Fail> {
    if let [first, second] = attributes {
        assert_eq!(rt; first.key.as_slice(), b"pw_len".as_slice());
        assert_eq!(rt; first.value.as_slice(), b"12 a".as_slice());
        assert_eq!(rt; second.key.as_slice(), b"x-.".as_slice());
        assert!(rt; second.value.is_empty());
    } else {
        return Err(Fail::from("not two attributes"));
    }
    Ok(())
}

#[test]
fn string_attributes_are_read(rt: HostRuntime) -> Result<(), Fail> {
    let (list, used) = read_tagged(rt.alloc(), STRINGS)?;
    assert_eq!(rt; used, STRINGS.len());
    let attributes = strings(rt.alloc(), &list)?;
    check_two(&rt, attributes.as_slice())
}

fn read_strings(alloc: Global) -> Result<StringAttributes, Fail> {
    let (list, _) = read_tagged(alloc, STRINGS)?;
    Ok(strings(alloc, &list)?)
}

#[test]
fn string_attributes_are_written(rt: HostRuntime) -> Result<(), Fail> {
    let attributes = read_strings(rt.alloc())?;
    let mut out = Vec::new(rt.alloc());
    push_strings(&mut out, &attributes)?;
    assert_eq!(rt; out.as_slice(), &STRINGS[6..23]);
    Ok(())
}

#[test]
fn what_is_no_content_of_attributes(rt: HostRuntime) {
    let wrong: [&[u8]; 12] = [
        // No attribute, a key without a value, and a value that does not end.
        b"",
        b"a\0",
        b"a\0b",
        // No bytes in the key, and a byte that no key has.
        b"\0b\0",
        b"a b\0b\0",
        b"a/b\0b\0",
        // A control byte in the value, and the last one of ASCII.
        b"a\0\x1f\0",
        b"a\0\x7f\0",
        // Keys that are equal, that fall, and of which the second begins the first.
        b"a\0b\0a\0c\0",
        b"b\0b\0a\0c\0",
        b"ab\0b\0a\0c\0",
        // A zero byte too many.
        b"a\0b\0\0",
    ];
    for bytes in &wrong {
        assert_eq!(rt;
            string_attributes::strings_in(rt.alloc(), bytes).err(),
            Some(kdb_format::FormatFault::Malformed),
            "{bytes:?}"
        );
    }
}

#[test]
fn how_long_keys_and_values_are(rt: HostRuntime) -> Result<(), Fail> {
    let most = vec![in rt.alloc(); b'a'; 1025]?;
    assert!(rt; is_string_key(&most[..64]) && !is_string_key(&most[..65]));
    assert!(rt; is_string_key(b"A") && !is_string_key(b""));
    assert!(rt; is_string_value(&most[..1024]) && !is_string_value(&most));
    assert!(rt; is_string_value(b"") && is_string_value(b" ~\x80\xff"));
    Ok(())
}

// So many attributes, with the keys aa, ab and so on.
fn many(alloc: Global, count: u8) -> Result<Vec<u8>, Fail> {
    let mut out = Vec::new(alloc);
    for i in 0..count {
        let second = (b'a').wrapping_add(i);
        out.extend_from_slice(&[b'a', second, 0, 0])?;
    }
    Ok(out)
}

#[test]
fn at_most_sixteen_attributes(rt: HostRuntime) -> Result<(), Fail> {
    let most = many(rt.alloc(), 16)?;
    assert!(rt; string_attributes::strings_in(rt.alloc(), &most).is_ok());
    let over = many(rt.alloc(), 17)?;
    assert!(rt; string_attributes::strings_in(rt.alloc(), &over).is_err());
    Ok(())
}
