//! The fields of each layout. They stand here once, for reading and for printing.

/// Hands the fields of a layout to a macro: each field's name in the row and its kind, in the order in which
/// they are written. The kinds are a number of a `line` from 1, another number (`count`, or `wide` where it has
/// 64 bits), a `text`, an action that is of no move (`plain`), and one that is (`moving`).
macro_rules! with_fields {
    (Counter, $then:ident, $($args:tt)*) => {
        $then!($($args)*, name: text, value: wide)
    };
    (Group, $then:ident, $($args:tt)*) => {
        $then!($($args)*, group: text, user: text)
    };
    (Protect, $then:ident, $($args:tt)*) => {
        $then!($($args)*, line: line, mode: text, kind: text, name: text, host: text, path: text)
    };
    (Domain, $then:ident, $($args:tt)*) => {
        $then!($($args)*, kind: text, name: text, form: text)
    };
    (Have, $then:ident, $($args:tt)*) => {
        $then!($($args)*, client: text, path: text, rev: count)
    };
    (Label, $then:ident, $($args:tt)*) => {
        $then!($($args)*, label: text, path: text, rev: count)
    };
    (Integed, $then:ident, $($args:tt)*) => {
        $then!(
            $($args)*, to_file: text, from_file: text, start_from: count, end_from: count, start_to: count,
            end_to: count, how: text, change: count
        )
    };
    (Resolve, $then:ident, $($args:tt)*) => {
        $then!($($args)*, client: text, path: text, from: text, first: count, last: count, how: text)
    };
    (Working, $then:ident, $($args:tt)*) => {
        $then!(
            $($args)*, path: text, client: text, base: count, action: plain, file_type: text, change: count,
            lock: count, source: text, source_rev: count
        )
    };
    (MovedWorking, $then:ident, $($args:tt)*) => {
        $then!(
            $($args)*, path: text, client: text, base: count, action: moving, file_type: text, change: count,
            lock: count, source: text, source_rev: count, moved: text
        )
    };
    (Change, $then:ident, $($args:tt)*) => {
        $then!($($args)*, change: count, status: text, user: text, client: text, moment: wide, text: text)
    };
    (Rev, $then:ident, $($args:tt)*) => {
        $then!(
            $($args)*, path: text, rev: count, change: count, action: plain, file_type: text, digest: text,
            length: wide, at: wide
        )
    };
    (MovedRev, $then:ident, $($args:tt)*) => {
        $then!(
            $($args)*, path: text, rev: count, change: count, action: moving, file_type: text, digest: text,
            length: wide, at: wide, moved: text
        )
    };
}

pub(crate) use with_fields;
