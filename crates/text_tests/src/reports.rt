//! Whole reports, to the byte.
use certificate::read_cert;
use report::{json_report, text_report};
use sheet_text::read_sheet;
use std::alloc::Global;
use std::process::Abort;
use std::test::Fail;

/// A sheet, a certificate, its report as a table, and its report as JSON.
type Case = (&'static [u8], &'static [u8], &'static [u8], &'static [u8]);

const TWO_TASKS: Case = (
    b"policy = 'fp'\n\
        task = [{ name = 'a', cost = 1, deadline = 4, priority = 1, period = 4 }, \
        { name = 'b', cost = 2, deadline = 6, priority = 1, period = 6 }]\n",
    b"poet-cert 1\ntasks 2\ntask 0 1 1 1\np 0 1\ntask 1 3 3 1\np 0 3\nend\n",
    b"task                   cost   deadline      bound     window  points result use\n\
        a                         1          4          1          1       1 met    #####...............\n\
        b                         2          6          3          3       1 met    ##########..........\n\
        tasks 2 missed 0\n",
    b"{\"missed\":0,\"policy\":\"fp\",\"tasks\":[\
        {\"bound\":1,\"cost\":1,\"deadline\":4,\"met\":true,\"name\":\"a\",\"points\":1,\"window\":1},\
        {\"bound\":3,\"cost\":2,\"deadline\":6,\"met\":true,\"name\":\"b\",\"points\":1,\"window\":3}]}\n",
);

/// A name wider than its column, a bound that begins a twentieth, one that is its deadline, and a
/// missed one whose name is escaped in JSON.
const LONG_NAMES: Case = (
    b"policy = 'edf'\n\
        task = [{ name = 'abcdefghijklmnopqrstuvwxyz012345', cost = 1, deadline = 1000000000, period = 1000000000 }, \
        { name = '~/', cost = 2, deadline = 3, period = 3 }, \
        { name = 'q\"\\', cost = 3, deadline = 7, period = 7 }]\n",
    b"poet-cert 1\ntasks 3\ntask 0 1000000000 1 2\np 0 1\np 5 1\n\
        task 1 4 3 1\np 0 3\ntask 2 9 8 1\np 0 8\nend\n",
    b"task                   cost   deadline      bound     window  points result use\n\
        abcdefghijklmnopqrstuvwxyz012345          1 1000000000          1 1000000000       2 met    #...................\n\
        ~/                        2          3          3          4       1 met    ####################\n\
        q\"\\                       3          7          8          9       1 missed ####################\n\
        tasks 3 missed 1\n",
    b"{\"missed\":1,\"policy\":\"edf\",\"tasks\":[\
        {\"bound\":1,\"cost\":1,\"deadline\":1000000000,\"met\":true,\"name\":\"abcdefghijklmnopqrstuvwxyz012345\",\"points\":2,\"window\":1000000000},\
        {\"bound\":3,\"cost\":2,\"deadline\":3,\"met\":true,\"name\":\"~/\",\"points\":1,\"window\":4},\
        {\"bound\":8,\"cost\":3,\"deadline\":7,\"met\":false,\"name\":\"q\\\"\\\\\",\"points\":1,\"window\":9}]}\n",
);

const ONE_ENTRY: &[u8] = b"poet-cert 1\ntasks 1\ntask 0 1 1 1\np 0 1\nend\n";

/// Sheets of one task, and how their reports as JSON begin.
const BY_POINTS: [(&[u8], &[u8]); 2] = [
    (
        b"policy = 'gel'\ntask = [{ name = 'a', cost = 1, deadline = 4, period = 4, point = -4 }]\n",
        b"{\"missed\":0,\"policy\":\"gel\",\"tasks\":[{",
    ),
    (
        b"policy = 'elf'\ntask = [{ name = 'a', cost = 1, deadline = 4, period = 4, priority = 1 }]\n",
        b"{\"missed\":0,\"policy\":\"elf\",\"tasks\":[{",
    ),
];

#[test]
fn reports_name_policies_by_points(rt: HostRuntime) -> Result<(), Fail> {
    let alloc = rt.alloc();
    for (sheet, front) in BY_POINTS {
        let sheet = read_sheet(alloc, sheet)?;
        let cert = read_cert(alloc, ONE_ENTRY)?;
        assert_eq!(rt; cert.entries.len(), sheet.len() as usize);
        let object = json_report(alloc, &sheet, &cert)?;
        assert!(rt; object.as_slice().starts_with(front));
    }
    Ok(())
}

/// Compares the table of the sheet and the certificate that these texts say.
fn assert_table(
    rt: &impl Abort,
    alloc: Global,
    sheet: &[u8],
    cert: &[u8],
    text: &[u8],
) -> Result<(), Fail> {
    let sheet = read_sheet(alloc, sheet)?;
    let cert = read_cert(alloc, cert)?;
    assert_eq!(rt; cert.entries.len(), sheet.len() as usize);
    let table = text_report(alloc, &sheet, &cert)?;
    assert_eq!(rt; table.as_slice(), text);
    Ok(())
}

/// The same of the report as JSON.
fn assert_object(
    rt: &impl Abort,
    alloc: Global,
    sheet: &[u8],
    cert: &[u8],
    json: &[u8],
) -> Result<(), Fail> {
    let sheet = read_sheet(alloc, sheet)?;
    let cert = read_cert(alloc, cert)?;
    assert_eq!(rt; cert.entries.len(), sheet.len() as usize);
    let object = json_report(alloc, &sheet, &cert)?;
    assert_eq!(rt; object.as_slice(), json);
    Ok(())
}

#[test]
fn reports_have_these_bytes(rt: HostRuntime) -> Result<(), Fail> {
    let alloc = rt.alloc();
    for (sheet, cert, text, json) in [TWO_TASKS, LONG_NAMES] {
        assert_table(&rt, alloc, sheet, cert, text)?;
        assert_object(&rt, alloc, sheet, cert, json)?;
    }
    Ok(())
}
