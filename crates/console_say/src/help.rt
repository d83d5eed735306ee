// What the console takes, as remarks.
ghost use Rattle.std.specs.Prelude.{◌+◌, ◌-◌, ◌≤◌, length};

use text_words::append;

fn stores(text: &mut [u8], at: usize) -> usize
    ensures { result ≤ at + (length text.old - at) }
{
    let at = append(
        b"# make KEYROOMS VERSIONROOMS DESKS; load DUMP KEYROOMS VERSIONROOMS DESKS\n",
        text,
        at,
    );
    let at = append(
        b"# newest KEY; readat NUMBER KEY; counts; desks\n",
        text,
        at,
    );
    append(
        b"# sweep [LIMIT]; sweep2 [LIMIT]; dump [OUTLEN]; replay JOURNAL\n",
        text,
        at,
    )
}

fn transactions(text: &mut [u8], at: usize) -> usize
    ensures { result ≤ at + (length text.old - at) }
{
    let at = append(
        b"# begin; commit START; commitj START OUTLEN; abort START\n",
        text,
        at,
    );
    append(
        b"# read START KEY; put START KEY VALUE; delete START KEY; batch RECORDS full|short\n",
        text,
        at,
    )
}

fn others(text: &mut [u8], at: usize) -> usize
    ensures { result ≤ at + (length text.old - at) }
{
    let at = append(
        b"# bytes START KEY; sum hall; peek hall FROM COUNT; poke hall AT BYTE; help; quit\n",
        text,
        at,
    );
    let at = append(
        b"# KEY, VALUE, DUMP, JOURNAL, RECORDS: hex, - for no bytes; a KEY also as ' and its letters\n",
        text,
        at,
    );
    append(b"# all else decimal; desk in place of hall\n", text, at)
}

// Behind the remarks stands an answer, as behind every call.
pub fn help(text: &mut [u8]) -> usize
    ensures { result ≤ length text.old }
{
    let at = stores(text, 0);
    let at = transactions(text, at);
    let at = others(text, at);
    append(b"ok", text, at)
}
