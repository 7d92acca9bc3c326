//! Texts that are cut at each place, and in pieces: they are answered and told as by single bytes.
use super::pieces::answer_by_pieces;
use super::{ALONE, BEHIND_ROOT, ROOT, Verdict, answer, changed, read, repeated, take_all};
use Verdict::{At, Whole};
use lexical_core::Rule::DuplicateAttribute;
use markup::{Events, Reader};
use std::alloc::{AllocError, Global};
use std::process::Abort;

/// The most bytes of a text behind each of which it is cut.
const CUTS: usize = 200;

/// The sizes of small pieces.
static SMALL_SIZES: [usize; 7] = [1, 2, 3, 4, 5, 6, 7];

/// A size that leaves a text in one piece.
static ONE_SIZE: [usize; 1] = [4096];

/// A text for each form of markup.
static FORMS: [&str; 11] = [
    "<Document xmlns=\"urn:x\">\n  <Pmt>\n    <Id>A-1</Id>\n    <Amt Ccy=\"EUR\">12.50</Amt>\n    <Cdtr>\n      <Nm>B C</Nm>\n    </Cdtr>\n    <Dt>2026-01-31</Dt>\n  </Pmt>\n  <Pmt/>\n</Document>\n",
    "<p:Document xmlns:p=\"urn:x\">\n  <p:Pmt>\n    <p:Id>A-1</p:Id>\n    <p:Amt p:Ccy=\"EUR\" Ccy=\"USD\">12.50</p:Amt>\n    <p:Cdtr>\n      <p:Nm>B C</p:Nm>\n    </p:Cdtr>\n  </p:Pmt>\n  <p:Pmt/>\n</p:Document>\n",
    " \t\n<a>   <b> \t </b>\n\n\t\t<c>  </c>\t \n <d/> <e> f  g </e>                   <h\t>\ni\n</h\n> \t \n      <j  k='l'\t/>   \n<m\n/>  </a >  \n\t \n",
    "<!-- a -->\n<a><!----><b>c<!-- d - e\n> <f> & ]]> -->g</b><!-- \u{E9} \u{20AC} --> <!-- h --><!-- i\r\nj\rk -->\n<!-- l - --></a><!-- never -->\n",
    "<?xml version='1.0' encoding=\"UTF-8\" standalone='yes'?>\n<?a b?><c><?d?><e>f<?g h ? > i?>j</e><?k\r\nl\rm?> <?n <o>&p;]]>?>\n<?q \u{E9}\u{1F600}?></c>\n<?r s??><?t ?>\n",
    "<a><![CDATA[]]><![CDATA[b]]>c<![CDATA[<d>&e;</d>]]><f><![CDATA[]]]><![CDATA[]]]]></f><![CDATA[g]h]]i] ]>j]]>k<![CDATA[\r\nl\rm]]]n]]><![CDATA[\u{20AC}]]]]>]]</a>",
    "<a>&lt;&gt;&amp;&apos;&quot;b&#65;&#x42;c&#10;&#13;&#9;<d>&#x20AC;&#128512;</d>&#x1f600; &#32;&lt;<e f='&lt;&#x41;g&#9;' h=\"&quot;i&apos;&#x20AC;\"/>]&#93;&gt;&amp;lt;&#0065;</a>",
    "<A xmlns='u' xmlns:p=\"v\"><B /><B a=\"\"/><C a = \"c\" b= 'd' e ='f'/><p:D p:a='1' a=\"2\"\tb='>'\n/><E xmlns=\"\"><F/></E><G xmlns:q='v' q:b='' p:a=''/><H xml:lang='de' a='\"'>i</H><p:J xmlns:p='w'><p:K/></p:J></A>",
    "<a>]b]]c]<d>]</d>]]<e>f]</e>]]]]<g/>]]]h] ]>]&#62;]] >]<!-- ]]> -->]]<i j=']]>'/>]]<k>]]]l</k>]\r\n]]\r]\u{E9}]]\u{20AC}]&gt;]]&gt;<m>]]]]]]]n</m>]]</a>",
    "<a>\r\nb\r\n\r\nc\rd\r\re<f>\r</f>\r\n<g>\r\r\n\n\r</g>\r<h i='\r\nj\rk'/>\r\r\r\n&#13;\r\n&#10;\r<l\r\nm='n'\r>\r]\r\n</l\r\n>o\r\n</a>\r\n\r\r\n",
    "<\u{E9}>\u{E9}\u{20AC}\u{1F600}<b c='\u{E9}\u{20AC}\u{1F600}'>d\u{E9}e\u{20AC}f\u{1F600}g</b>\u{7FF}\u{800}\u{FFFD}\u{10000}\u{10FFFF}\u{A0}<\u{20AC}h \u{E9}=''/><i>\u{80}\u{FFF}\u{D7FF}\u{E000}\u{3FFFF}</i></\u{E9}>",
];

/// The text is answered and told as by single bytes in pieces of these sizes, of which the first has so many bytes.
fn check_pieces(rt: &impl Abort, alloc: Global, text: &[u8], first: usize, sizes: &[usize]) {
    let mut events = Events::new(alloc);
    let expected = read(alloc, text, &mut events);
    for size in sizes {
        let reader = Reader::new(alloc);
        let found = answer_by_pieces(reader, alloc, text, first, *size, events.as_slice());
        assert!(rt; found == expected, "{text:?}, {first}, {size}: {found:?}");
    }
}

/// So are each front of the text, and the text cut behind that front.
fn check_cuts(rt: &impl Abort, alloc: Global, text: &[u8]) {
    for cut in 0..=text.len().min(CUTS) {
        check_pieces(rt, alloc, &text[..cut], 0, &SMALL_SIZES);
        check_pieces(rt, alloc, text, cut, &SMALL_SIZES);
    }
}

#[test]
fn forms_in_pieces(rt: HostRuntime) {
    for text in &FORMS {
        let found = answer(rt.alloc(), text.as_bytes());
        assert!(rt; found == Whole, "{text}: {found:?}");
        check_cuts(&rt, rt.alloc(), text.as_bytes());
    }
}

/// Each text of the rows is answered as they say, and as a whole, cut and in pieces as by single bytes.
fn check_texts(
    rt: &impl Abort,
    alloc: Global,
    front: &str,
    rows: &[(&str, Verdict)],
) -> Result<(), AllocError> {
    for (text, expected) in rows {
        let bytes = repeated(alloc, &[(front, 1), (*text, 1)])?;
        let found = answer(alloc, bytes.as_slice());
        assert!(rt; found == *expected, "{text}: {found:?}");
        check_pieces(rt, alloc, bytes.as_slice(), 0, &ONE_SIZE);
        check_cuts(rt, alloc, bytes.as_slice());
    }
    Ok(())
}

#[test]
fn texts_in_pieces(rt: HostRuntime) -> Result<(), AllocError> {
    check_texts(&rt, rt.alloc(), ROOT, &BEHIND_ROOT)?;
    check_texts(&rt, rt.alloc(), "", &ALONE)
}

/// Instances with tags, runs and what stands between them, by pieces with how often each stands, and what is
/// said of them: with a prefix that the tag itself declares, with a namespace of 300 bytes, and with 25
/// attributes out of order, of which two have one name or none.
static SHAPES: [(&[(&str, usize)], Verdict); 5] = [
    (
        &[(
            "<a xmlns=\"u\">\n <b>x y\tz</b>\r\n<c/><p:d xmlns:p=\"v\"><p:g/><p:h i=\"1\">x</p:h><e p:j='k'>]</e>]]<f.g-h_1>&lt;&#x41;</f.g-h_1></p:d><!-- - --><?q ?><i j='k&#65;\"l\t' m = \"'n\"/><![CDATA[<>]]></a>",
            1,
        )],
        Whole,
    ),
    (
        &[(
            "<p:a p:b='1' xmlns:p='u' c='2'><p:d xmlns:p='v' p:e=''/></p:a>",
            1,
        )],
        Whole,
    ),
    (
        &[
            ("<p:a xmlns:p='", 1),
            ("u", 300),
            ("'><b p:d='' p:c='' a=''/></p:a>", 1),
        ],
        Whole,
    ),
    (
        &[(
            "<a y='' x='' w='' v='' u='' t='' s='' r='' q='' p='' o='' n='' m='' l='' k='' j='' i='' h='' g='' f='' e='' d='' c='' b='' a=''/>",
            1,
        )],
        Whole,
    ),
    (
        &[(
            "<a y='' x='' w='' v='' u='' t='' s='' r='' q='' p='' o='' n='' m='' l='' k='' j='' i='' h='' g='' f='' e='' d='' c='' q='' a=''/>",
            1,
        )],
        At(DuplicateAttribute, 0),
    ),
];

/// With the byte at this place changed to another one, the text is answered and told in one piece as by single bytes.
fn check_change(
    rt: &impl Abort,
    alloc: Global,
    text: &[u8],
    at: usize,
    byte: u8,
) -> Result<(), AllocError> {
    let bytes = changed(alloc, text, at, byte)?;
    check_pieces(rt, alloc, bytes.as_slice(), 0, &ONE_SIZE);
    Ok(())
}

#[test]
fn changes_in_one_piece(rt: HostRuntime) -> Result<(), AllocError> {
    for (pieces, expected) in &SHAPES {
        let text = repeated(rt.alloc(), pieces)?;
        let found = answer(rt.alloc(), text.as_slice());
        assert!(&rt; found == *expected, "{found:?}");
        check_pieces(&rt, rt.alloc(), text.as_slice(), 0, &ONE_SIZE);
        for at in 0..text.len() {
            for byte in [0, b'<', b'&', b']', b'>', b':', 0xFF] {
                check_change(&rt, rt.alloc(), text.as_slice(), at, byte)?;
            }
        }
    }
    Ok(())
}

/// Takes the bytes and the end without limit, and appends all their events.
fn read_without_limit(alloc: Global, bytes: &[u8], out: &mut Events) -> Verdict {
    let mut reader = Reader::without_limit(alloc);
    take_all(&mut reader, bytes, out, true)
}

/// The text is answered and told by a reader without limit in one piece and in pieces as by single bytes.
fn check_without_limit(rt: &impl Abort, alloc: Global, text: &[u8]) {
    let mut events = Events::new(alloc);
    let expected = read_without_limit(alloc, text, &mut events);
    assert!(rt; expected == Whole, "{expected:?}");
    for size in [4096, 2_000_000] {
        let reader = Reader::without_limit(alloc);
        let found = answer_by_pieces(reader, alloc, text, 0, size, events.as_slice());
        assert!(rt; found == Whole, "{size}: {found:?}");
    }
}

/// A tag that is longer than one of XML may be is taken by a reader without limit.
#[test]
fn tags_of_any_length(rt: HostRuntime) -> Result<(), AllocError> {
    let bytes = repeated(rt.alloc(), &[("<a", 1), (" ", 1_048_573), ("/>", 1)])?;
    check_without_limit(&rt, rt.alloc(), bytes.as_slice());
    Ok(())
}
