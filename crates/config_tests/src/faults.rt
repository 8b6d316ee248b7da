//! Configurations with one fault at each place, and pairs of faults whose order decides.
use crate::texts::{
    ALL, ERROR, NULL, Place, ROOT, SPOOL, STEP, add, assert_so, fault_at, fault_in,
};
use mj_config::{PlanFault, PlanKind};
use std::alloc::Global;
use std::process::Abort;
use std::test::Fail;

/// The places of cases: a whole file, what stands before `[spool]`, behind it, and between it and the processors, a value of
/// `match`, and the lines behind a step's matcher.
const FILE: Place = (&[], &[]);

const AT_FRONT: Place = (&[], &[SPOOL]);

const BEHIND_SPOOL: Place = (&[SPOOL], &[]);

const BEFORE_ROOT: Place = (&[SPOOL], &[ROOT, ERROR]);

const AT_MATCH: Place = (&[SPOOL, ROOT, STEP, "match = "], &[NULL, ERROR]);

const BEHIND_MATCH: Place = (&[SPOOL, ROOT, STEP, ALL], &[ERROR]);

/// The fault of a configuration with this case at this place.
fn fault_of(alloc: Global, (front, back): Place, case: &str) -> Result<Option<PlanFault>, Fail> {
    let mut text = Vec::new(alloc);
    add(&mut text, front)?;
    add(&mut text, &[case])?;
    add(&mut text, back)?;
    Ok(fault_in(alloc, &text))
}

/// Cases at a place, and the kind, the processor and the step of their fault; nothing where they are taken.
type Group = (Place, &'static [&'static str], Option<(PlanKind, u32, u32)>);

/// Fails where one of these cases has another fault.
fn assert_all(
    rt: &(impl Abort + AllocGlobal),
    place: Place,
    cases: &[&str],
    want: Option<PlanFault>,
) -> Result<(), Fail> {
    for case in cases {
        assert_so(rt, fault_of(rt.alloc(), place, case)? == want, case);
    }
    Ok(())
}

fn assert_groups(rt: &(impl Abort + AllocGlobal), groups: &[Group]) -> Result<(), Fail> {
    for &(place, cases, at) in groups {
        assert_all(rt, place, cases, fault_at(at))?;
    }
    Ok(())
}

/// Files that are refused as a whole, by their fault.
const FILES_MISSING: [&str; 3] = ["", "[spool]", "[spool]\nhost_name = \"a.test\""];

const FILES_NOT_TOML: [&str; 1] = ["spool"];

const FILES_WRONG_TYPE: [&str; 6] = [
    "spool = 5",
    "[spool]\nhost_name = 5",
    "[spool]\nhost_name = \"a.test\"\npostmaster = [\"p@a.test\"]",
    "[spool]\nhost_name = \"a.test\"\npostmaster = \"p@a.test\"\nlocal_hosts = [\"-\", 5]",
    "[spool]\nhost_name = \"a.test\"\npostmaster = \"p@a.test\"\nlocal_hosts = []\nlocal_users = \"ann\"",
    "[spool]\nhost_name = \"a.test\"\npostmaster = \"p@a.test\"\nlocal_hosts = []\nlocal_users = []\nstart = 2024-01-01T00:00:00Z",
];

const FILES_BAD_ADDRESS: [&str; 4] = [
    "[spool]\nhost_name = \"-\"",
    "[spool]\nhost_name = \"a.test\"\npostmaster = \"p\"\nlocal_hosts = 5",
    "[spool]\nhost_name = \"a.test\"\npostmaster = \"p@a.test\"\nlocal_hosts = [\"b.test\", \"-\"]",
    "[spool]\nhost_name = \"a.test\"\npostmaster = \"p@a.test\"\nlocal_hosts = []\nlocal_users = [\"a@b\"]",
];

const FILES_BAD_MOMENT: [&str; 2] = [
    "[spool]\nhost_name = \"a.test\"\npostmaster = \"p@a.test\"\nlocal_hosts = []\nlocal_users = []\nstart = \"2023-02-29T00:00:00Z\"",
    "[spool]\nhost_name = \"a.test\"\npostmaster = \"p@a.test\"\nlocal_hosts = []\nlocal_users = []\nstart = \"2101-01-01T00:00:00Z\"",
];

const FILES_NO_ROOT: [&str; 1] = [
    "[spool]\nhost_name = \"a.test\"\npostmaster = \"p@a.test\"\nlocal_hosts = []\nlocal_users = []\nstart = \"2024-02-29T00:00:00Z\"",
];

const FILES: [Group; 6] = [
    (FILE, &FILES_MISSING, Some((PlanKind::Missing, 0, 0))),
    (FILE, &FILES_NOT_TOML, Some((PlanKind::NotToml, 0, 0))),
    (FILE, &FILES_WRONG_TYPE, Some((PlanKind::WrongType, 0, 0))),
    (FILE, &FILES_BAD_ADDRESS, Some((PlanKind::BadAddress, 0, 0))),
    (FILE, &FILES_BAD_MOMENT, Some((PlanKind::BadMoment, 0, 0))),
    (FILE, &FILES_NO_ROOT, Some((PlanKind::NoRoot, 0, 0))),
];

#[test]
fn the_file_and_its_spool(rt: HostRuntime) -> Result<(), Fail> {
    assert_groups(&rt, &FILES)
}

/// Lines of a table `[spool]` that has the other keys.
const HOPS_BAD_ARGUMENT: [&str; 5] = [
    "max_hops = 0\n",
    "max_hops = 1_001\n",
    "max_hops = -1\n",
    "max_hops = \"1e2\"\n",
    "max_hops = 9223372036854775807\n",
];

const HOPS_TAKEN: [&str; 3] = ["max_hops = 1\n", "max_hops = \"1000\"\n", "rewritten = 5\n"];

const HOPS_WRONG_TYPE: [&str; 2] = ["max_hops = 5.0\n", "max_hops = true\nrewrite = 5\n"];

const HOPS: [Group; 3] = [
    (
        BEFORE_ROOT,
        &HOPS_BAD_ARGUMENT,
        Some((PlanKind::BadArgument, 0, 0)),
    ),
    (BEFORE_ROOT, &HOPS_TAKEN, None),
    (
        BEFORE_ROOT,
        &HOPS_WRONG_TYPE,
        Some((PlanKind::WrongType, 0, 0)),
    ),
];

#[test]
fn the_limit_of_hops(rt: HostRuntime) -> Result<(), Fail> {
    assert_groups(&rt, &HOPS)
}

/// Rewrite tables.
const REWRITES_WRONG_TYPE: [&str; 4] = [
    "[rewrite]\n",
    "[[rewrite]]\nfrom = \"a@b.test\"\nto = \"c@d.test\"\n",
    "[[rewrite]]\nfrom = \"a\"\nto = [5]\n",
    "[[rewrite]]\nfrom = 5\nerror = \"\"\n",
];

const REWRITES_MISSING: [&str; 3] = [
    "[[rewrite]]\n",
    "[[rewrite]]\nfrom = \"a@b.test\"\n",
    "[[rewrite]]\ndomain = \"b.test\"\n",
];

const REWRITES_BAD_ADDRESS: [&str; 3] = [
    "[[rewrite]]\nfrom = \"a\"\nto = [\"c@d.test\"]\n",
    "[[rewrite]]\nfrom = \"a@b.test\"\nto = [\"c\"]\n",
    "[[rewrite]]\ndomain = \"b.test\"\nto_domain = \"-\"\n",
];

const REWRITES_BAD_ARGUMENT: [&str; 2] = [
    "[[rewrite]]\nfrom = \"a@b.test\"\nto = []\n",
    "[[rewrite]]\nfrom = \"a@b.test\"\nerror = \"\"\n",
];

const REWRITES_TAKEN: [&str; 3] = [
    "[[rewrite]]\nfrom = \"a@b.test\"\nto = [\"c@d.test\"]\nerror = 5\n",
    "[[rewrite]]\nfrom = \"a@b.test\"\nerror = \"gone\"\n",
    "[[rewrite]]\nfrom = \"a@b.test\"\ndomain = \"b.test\"\nto_domain = \"d.test\"\n",
];

const REWRITES: [Group; 5] = [
    (
        BEFORE_ROOT,
        &REWRITES_WRONG_TYPE,
        Some((PlanKind::WrongType, 0, 0)),
    ),
    (
        BEFORE_ROOT,
        &REWRITES_MISSING,
        Some((PlanKind::Missing, 0, 0)),
    ),
    (
        BEFORE_ROOT,
        &REWRITES_BAD_ADDRESS,
        Some((PlanKind::BadAddress, 0, 0)),
    ),
    (
        BEFORE_ROOT,
        &REWRITES_BAD_ARGUMENT,
        Some((PlanKind::BadArgument, 0, 0)),
    ),
    (BEFORE_ROOT, &REWRITES_TAKEN, None),
];

#[test]
fn rows_of_the_rewrite_table(rt: HostRuntime) -> Result<(), Fail> {
    assert_groups(&rt, &REWRITES)
}

/// Tables `[[processor]]`, by their fault; a key of the document stands in front of `[spool]`.
const PROCESSORS_WRONG_TYPE: [&str; 2] = ["processor = 5\n", "processor = [5]\n"];

const PROCESSORS_MISSING: [&str; 1] = ["[[processor]]\n"];

const PROCESSORS_WRONG_TYPE_IN_ONE: [&str; 3] = [
    "[[processor]]\nname = 5\n",
    "[[processor]]\nname = \"root\"\nstep = 5\n[[processor]]\nname = \"root\"\n",
    "[[processor]]\nname = \"root\"\nstep = [5]\n",
];

const PROCESSORS_BAD_ARGUMENT: [&str; 1] = ["[[processor]]\nname = \"a b\"\n"];

const PROCESSORS_RESERVED_STATE: [&str; 2] = [
    "[[processor]]\nname = \"ghost\"\n",
    "[[processor]]\nname = \"matchall\"\n",
];

const PROCESSORS_NO_ROOT: [&str; 2] = [
    "[[processor]]\nname = \"Ghost\"\n",
    "[[processor]]\nname = \"error\"\n",
];

const PROCESSORS_TWICE: [&str; 1] = [
    "[[processor]]\nname = \"root\"\n[[processor]]\nname = \"root\"\nstep = 5\n",
];

const PROCESSORS_NO_ERROR: [&str; 1] = ["[[processor]]\nname = \"root\"\n[[processor.step]]\n"];

const PROCESSORS_TAKEN: [&str; 1] = [
    "[[processor]]\nname = \"error\"\nstep = []\n[[processor]]\nname = \"root\"\n",
];

const PROCESSORS_MISSING_IN_STEP: [&str; 1] = [
    "[[processor]]\nname = \"root\"\n[[processor]]\nname = \"error\"\n[[processor.step]]\n",
];

const PROCESSORS: [Group; 10] = [
    (
        AT_FRONT,
        &PROCESSORS_WRONG_TYPE,
        Some((PlanKind::WrongType, 0, 0)),
    ),
    (
        BEHIND_SPOOL,
        &PROCESSORS_MISSING,
        Some((PlanKind::Missing, 1, 0)),
    ),
    (
        BEHIND_SPOOL,
        &PROCESSORS_WRONG_TYPE_IN_ONE,
        Some((PlanKind::WrongType, 1, 0)),
    ),
    (
        BEHIND_SPOOL,
        &PROCESSORS_BAD_ARGUMENT,
        Some((PlanKind::BadArgument, 1, 0)),
    ),
    (
        BEHIND_SPOOL,
        &PROCESSORS_RESERVED_STATE,
        Some((PlanKind::ReservedState, 1, 0)),
    ),
    (
        BEHIND_SPOOL,
        &PROCESSORS_NO_ROOT,
        Some((PlanKind::NoRoot, 0, 0)),
    ),
    (
        BEHIND_SPOOL,
        &PROCESSORS_TWICE,
        Some((PlanKind::Twice, 2, 0)),
    ),
    (
        BEHIND_SPOOL,
        &PROCESSORS_NO_ERROR,
        Some((PlanKind::NoError, 0, 0)),
    ),
    (BEHIND_SPOOL, &PROCESSORS_TAKEN, None),
    (
        BEHIND_SPOOL,
        &PROCESSORS_MISSING_IN_STEP,
        Some((PlanKind::Missing, 2, 1)),
    ),
];

#[test]
fn names_of_processors(rt: HostRuntime) -> Result<(), Fail> {
    assert_groups(&rt, &PROCESSORS)
}

const MATCHERS_TAKEN: [&str; 27] = [
    "\"All\"",
    "\"RecipientIs= a@b.test ,c@d.test\"",
    "\"RecipientIsLocal\"",
    "\"HostIs=b.test\"",
    "\"UserIs=ann,bob\"",
    "\"SenderIs=a@b.test\"",
    "\"SenderIsNull\"",
    "\"SizeGreaterThan=10\"",
    "\"SizeGreaterThan=10k\"",
    "\"SizeGreaterThan=999999999m\"",
    "\"SubjectIs=a=b\"",
    "\"HasHeader=X-A\"",
    "\"HasHeader=X-A=\"",
    "\"HasHeader=X-A= b\"",
    "\"HasMailAttributeWithValue=a,\"",
    "\"HasMailAttributeWithValue= a , b,c \"",
    "\"RelayLimit=0009999\"",
    "\"IsSingleRecipient\"",
    "\"TooManyRecipients=1\"",
    "\"CompareNumericHeaderValue=X-Spam  >=  5\"",
    "\"CompareNumericHeaderValue=X-Spam == 123456789012345678\"",
    "\"IsRemoteDeliveryPermanentError\"",
    "\"IsRemoteDeliveryTemporaryError\"",
    "\"RemoteDeliveryFailedWithSMTPCode=550\"",
    "\"Fail\"",
    "{And = [\"All\"]}",
    "{Xor = [\"All\", {Not = [\"Fail\"]}]}",
];

const MATCHERS_BAD_ARGUMENT: [&str; 28] = [
    "\"All=\"",
    "\"RecipientIs\"",
    "\"RecipientIs= \"",
    "\"HostIsLocal=b.test\"",
    "\"UserIs=ann,,bob\"",
    "\"SizeGreaterThan=10K\"",
    "\"SizeGreaterThan=k\"",
    "\"SizeGreaterThan=1234567890\"",
    "\"SubjectStartsWith=\"",
    "\"HasHeader=X A\"",
    "\"HasHeader==b\"",
    "\"HasMailAttribute=a,b\"",
    "\"HasMailAttributeWithValue=a\"",
    "\"RelayLimit=0\"",
    "\"RelayLimit=10000\"",
    "\"TooManyRecipients=-1\"",
    "\"CompareNumericHeaderValue=X-Spam = 1234567890123456789\"",
    "\"CompareNumericHeaderValue=X-Spam>=5\"",
    "\"CompareNumericHeaderValue=X-Spam => 5\"",
    "\"CompareNumericHeaderValue=X-Spam < 5 6\"",
    "\"RemoteDeliveryFailedWithSMTPCode=55\"",
    "{}",
    "{And = [\"All\"], Or = [\"All\"]}",
    "{And = []}",
    "{Nand = [\"All\"]}",
    "{Or = [\"All=\", \"Foo\"]}",
    "{Xor = [\"All\"]}",
    "{Xor = [\"All\", \"All\", \"All\"]}",
];

const MATCHERS_UNKNOWN_MATCHER: [&str; 4] = [
    "\"all\"",
    "\" All\"",
    "\"\"",
    "{Not = [{Or = [\"Foo\"]}, \"All=\"]}",
];

const MATCHERS_WRONG_TYPE: [&str; 5] = [
    "5",
    "[\"All\"]",
    "{And = \"All\"}",
    "{Nand = [5]}",
    "{Or = [\"Foo\", 5]}",
];

const MATCHERS_BAD_ADDRESS: [&str; 3] = [
    "\"RecipientIs=a@b.test,\"",
    "\"HostIs=b.test,,d.test\"",
    "\"SenderHostIs=-\"",
];

const MATCHERS: [Group; 5] = [
    (AT_MATCH, &MATCHERS_TAKEN, None),
    (
        AT_MATCH,
        &MATCHERS_BAD_ARGUMENT,
        Some((PlanKind::BadArgument, 1, 1)),
    ),
    (
        AT_MATCH,
        &MATCHERS_UNKNOWN_MATCHER,
        Some((PlanKind::UnknownMatcher, 1, 1)),
    ),
    (
        AT_MATCH,
        &MATCHERS_WRONG_TYPE,
        Some((PlanKind::WrongType, 1, 1)),
    ),
    (
        AT_MATCH,
        &MATCHERS_BAD_ADDRESS,
        Some((PlanKind::BadAddress, 1, 1)),
    ),
];

#[test]
fn matchers(rt: HostRuntime) -> Result<(), Fail> {
    assert_groups(&rt, &MATCHERS)
}

const LINES_MISSING: [&str; 4] = [
    "",
    "class = \"ToProcessor\"\n",
    "class = \"ToRepository\"\n",
    "class = \"ToProcessor\"\nonMatchException = 5\n",
];

const LINES_WRONG_TYPE: [&str; 8] = [
    "class = 5\n",
    "class = \"ToProcessor\"\nprocessor = 5\n",
    "class = \"SetMailAttribute\"\nattributes = {a = \"\", b = 5}\n",
    "class = \"MailAttributesToMimeHeaders\"\nsimplemapping = [\"a\", 5]\n",
    "class = \"NotifyPostmaster\"\npassThrough = 1\n",
    "class = \"RemoteDelivery\"\ndelayTime = 5\n",
    "class = \"RemoteDelivery\"\ndelayTime = \"0*5 s\"\nmaxRetries = true\n",
    "class = \"Null\"\nonMatchException = 5\nonMailetException = \"nomatch\"\n",
];

const LINES_UNKNOWN_CLASS: [&str; 1] = ["class = \"null\"\n"];

const LINES_TAKEN: [&str; 22] = [
    "class = \"Null\"\nprocessor = 5\n",
    "class = \"ToProcessor\"\nprocessor = \"error\"\n",
    "class = \"ToProcessor\"\nprocessor = \"ghost\"\n",
    "class = \"SetMailAttribute\"\nattributes = {b = \"c\", a = \"\"}\n",
    "class = \"RemoveMailAttribute\"\nname = \"a, b\"\n",
    "class = \"RemoveAllMailAttributes\"\n",
    "class = \"SetMimeHeader\"\nname = \"X-A\"\nvalue = \"b\"\n",
    "class = \"RemoveMimeHeader\"\nname = \"X-A,X-B\"\n",
    "class = \"MailAttributesToMimeHeaders\"\nsimplemapping = [\"a;X-A\"]\n",
    "class = \"AddSubjectPrefix\"\nsubjectPrefix = \"[x]\"\n",
    "class = \"RecipientToLowerCase\"\n",
    "class = \"PostmasterAlias\"\n",
    "class = \"RecipientRewriteTable\"\n",
    "class = \"Forward\"\nforwardTo = \"a@b.test\"\npassThrough = \"true\"\n",
    "class = \"Bounce\"\n",
    "class = \"LocalDelivery\"\n",
    "class = \"ToRepository\"\nrepositoryPath = \"file://var/mail\"\npassThrough = false\n",
    "class = \"RemoteDelivery\"\n",
    "class = \"RemoteDelivery\"\nmaxRetries = 100\n",
    "class = \"RemoteDelivery\"\ngateway = \"g.test\"\nbounceProcessor = \"ghost\"\n",
    "class = \"Fail\"\n",
    "class = \"Null\"\nonMatchException = \"matchall\"\nonMailetException = \"ignore\"\n",
];

const LINES_UNKNOWN_PROCESSOR: [&str; 4] = [
    "class = \"ToProcessor\"\nprocessor = \"nowhere\"\n",
    "class = \"RemoteDelivery\"\nbounceProcessor = \"nowhere\"\n",
    "class = \"Null\"\nonMatchException = \"ignore\"\n",
    "class = \"Null\"\nonMailetException = \"nomatch\"\n",
];

const LINES_BAD_ARGUMENT: [&str; 17] = [
    "class = \"SetMailAttribute\"\nattributes = {}\n",
    "class = \"SetMailAttribute\"\nattributes = {\"a,b\" = \"c\"}\n",
    "class = \"RemoveMailAttribute\"\nname = \"a,\"\n",
    "class = \"SetMimeHeader\"\nname = \"X A\"\nvalue = 5\n",
    "class = \"SetMimeHeader\"\nname = \"X-A\"\nvalue = \"\"\n",
    "class = \"RemoveMimeHeader\"\nname = \" \"\n",
    "class = \"MailAttributesToMimeHeaders\"\nsimplemapping = [\"a\"]\n",
    "class = \"MailAttributesToMimeHeaders\"\nsimplemapping = []\n",
    "class = \"Forward\"\nforwardTo = \"\"\n",
    "class = \"Forward\"\nforwardTo = \"a@b.test, c@d.test\"\npassThrough = \"yes\"\n",
    "class = \"Bounce\"\nmessage = \"\"\n",
    "class = \"ToRepository\"\nrepositoryPath = \"a b\"\n",
    "class = \"RemoteDelivery\"\noutgoing = \"a b\"\n",
    "class = \"RemoteDelivery\"\ndelayTime = \"0*5 s\"\n",
    "class = \"RemoteDelivery\"\ndelayTime = \"8 days\"\n",
    "class = \"RemoteDelivery\"\nmaxRetries = 101\n",
    "class = \"Fail\"\ntext = \"\"\n",
];

const LINES_BAD_ADDRESS: [&str; 2] = [
    "class = \"Forward\"\nforwardTo = \"a@b.test,c\"\n",
    "class = \"RemoteDelivery\"\ngateway = \"-\"\nbounceProcessor = \"nowhere\"\n",
];

const LINES: [Group; 7] = [
    (
        BEHIND_MATCH,
        &LINES_MISSING,
        Some((PlanKind::Missing, 1, 1)),
    ),
    (
        BEHIND_MATCH,
        &LINES_WRONG_TYPE,
        Some((PlanKind::WrongType, 1, 1)),
    ),
    (
        BEHIND_MATCH,
        &LINES_UNKNOWN_CLASS,
        Some((PlanKind::UnknownClass, 1, 1)),
    ),
    (BEHIND_MATCH, &LINES_TAKEN, None),
    (
        BEHIND_MATCH,
        &LINES_UNKNOWN_PROCESSOR,
        Some((PlanKind::UnknownProcessor, 1, 1)),
    ),
    (
        BEHIND_MATCH,
        &LINES_BAD_ARGUMENT,
        Some((PlanKind::BadArgument, 1, 1)),
    ),
    (
        BEHIND_MATCH,
        &LINES_BAD_ADDRESS,
        Some((PlanKind::BadAddress, 1, 1)),
    ),
];

#[test]
fn classes_and_parameters(rt: HostRuntime) -> Result<(), Fail> {
    assert_groups(&rt, &LINES)
}

/// Remote deliveries of the names `outgoing`, which is that of one without a name, and `Outgoing`.
const BEHIND_DELIVERIES: Place = (
    &[
        SPOOL,
        ROOT,
        STEP,
        ALL,
        "class = \"RemoteDelivery\"\n",
        ERROR,
        STEP,
        ALL,
        "class = \"RemoteDelivery\"\noutgoing = \"Outgoing\"\n",
    ],
    &[],
);

const OUTGOING: &str =
    "[[processor.step]]\nmatch = \"All\"\nclass = \"RemoteDelivery\"\noutgoing = \"outgoing\"\ndelayTime = 5\n";

#[test]
fn names_of_remote_deliveries(rt: HostRuntime) -> Result<(), Fail> {
    assert_groups(
        &rt,
        &[
            (
                BEHIND_DELIVERIES,
                &[OUTGOING],
                Some((PlanKind::Twice, 2, 2)),
            ),
            (BEHIND_DELIVERIES, &[""], None),
        ],
    )
}
