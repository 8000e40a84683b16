// Texts of classes, and their canonical texts.
use crate::answer::repeated;
use jimple_rewrite::rewrite;
use jimple_text::read_classes;
use std::alloc::{AllocError, Global};
use std::test::Fail;

// A class with branches, a catch clause and quoted names.
const TEXT: &[u8] =
    b"final class a.'b' extends 'int' { int 'to'; g [ ]x; static void m(int, a.b[]) throws E { int i, 'if'; i := @parameter007: int; again: if i == 0 goto end; i = i + 1; goto again; end: return; catch E from again to end with end; } }";

// The same, as it is written.
const WRITTEN: &[u8] = b"final class a.b extends 'int'
{
    int 'to';
    g[] x;
    static void m(int,a.b[]) throws E
    {
        int i;
        int 'if';
        i := @parameter7: int;
    label1:
        if i == 0 goto label2;
        i = i + 1;
        goto label1;
    label2:
        return;
        catch E from label1 to label2 with label2;
    }
}
";

// Mutual recursion.
const RECURSION: &[u8] = b"public class A extends java.lang.Object
{
    public static void m()
    {
        int i0, i1;
        i0 = staticinvoke <S: int src()>();
        i1 = staticinvoke <A: int f(int)>(i0);
        staticinvoke <S: void snk(int)>(i1);
        return;
    }
    public static int f(int)
    {
        int x, y;
        x := @parameter0: int;
        if x == 0 goto out;
        y = staticinvoke <A: int g(int)>(x);
        return y;
    out:
        return x;
    }
    public static int g(int)
    {
        int x, y;
        x := @parameter0: int;
        y = staticinvoke <A: int f(int)>(x);
        return y;
    }
}
";

// A catch clause.
const HANDLER: &[u8] = b"public class A extends java.lang.Object
{
    public static void m()
    {
        int i0, i1;
        java.lang.Throwable r0;
        i0 = staticinvoke <S: int src()>();
    from_:
        i1 = i0;
    to_:
        return;
    handler:
        r0 := @caughtexception;
        staticinvoke <S: void snk(int)>(i0);
        return;
        catch java.lang.Throwable from from_ to to_ with handler;
    }
}
";

// Two classes of a usual app.
const ACTIVITY: &[u8] = b"public class com.a.Main extends android.app.Activity
{
    private java.lang.String id;

    public void <init>()
    {
        com.a.Main r0;
        r0 := @this: com.a.Main;
        specialinvoke r0.<android.app.Activity: void <init>()>();
        return;
    }

    protected void onCreate(android.os.Bundle)
    {
        com.a.Main r0;
        android.os.Bundle r1;
        java.lang.Object $r2;
        android.telephony.TelephonyManager r3;
        java.lang.String r4;
        r0 := @this: com.a.Main;
        r1 := @parameter0: android.os.Bundle;
        specialinvoke r0.<android.app.Activity: void onCreate(android.os.Bundle)>(r1);
        $r2 = virtualinvoke r0.<com.a.Main: java.lang.Object getSystemService(java.lang.String)>(\"phone\");
        r3 = (android.telephony.TelephonyManager) $r2;
        r4 = virtualinvoke r3.<android.telephony.TelephonyManager: java.lang.String getDeviceId()>();
        r0.<com.a.Main: java.lang.String id> = r4;
        return;
    }

    protected void onPause()
    {
        com.a.Main r0;
        java.lang.StringBuilder $r1, $r2, $r4;
        java.lang.String $r3, $r5;
        android.telephony.SmsManager r6;
        r0 := @this: com.a.Main;
        specialinvoke r0.<android.app.Activity: void onPause()>();
        $r1 = new java.lang.StringBuilder;
        specialinvoke $r1.<java.lang.StringBuilder: void <init>()>();
        $r2 = virtualinvoke $r1.<java.lang.StringBuilder: java.lang.StringBuilder append(java.lang.String)>(\"id=\");
        $r3 = r0.<com.a.Main: java.lang.String id>;
        $r4 = virtualinvoke $r2.<java.lang.StringBuilder: java.lang.StringBuilder append(java.lang.String)>($r3);
        $r5 = virtualinvoke $r4.<java.lang.StringBuilder: java.lang.String toString()>();
        r6 = staticinvoke <android.telephony.SmsManager: android.telephony.SmsManager getDefault()>();
        virtualinvoke r6.<android.telephony.SmsManager: void sendTextMessage(java.lang.String,java.lang.String,java.lang.String,android.app.PendingIntent,android.app.PendingIntent)>(\"1\", null, $r5, null, null);
        return;
    }
}
";

const SERVICE: &[u8] = b"public class com.a.Sync extends android.app.Service
{
    public int onStartCommand(android.content.Intent, int, int)
    {
        com.a.Sync r0;
        r0 := @this: com.a.Sync;
        return 2;
    }
}
";

// The class of the smallest leak.
const SMALLEST: &[u8] = b"public class A extends java.lang.Object
{
    public static void m()
    {
        int i0;
        i0 = staticinvoke <S: int src()>();
        staticinvoke <S: void snk(int)>(i0);
        return;
    }
}
";

// Headings and members without a body.
const HEADINGS: &[u8] = b"public abstract class 'annotation'.'1a' implements 'bridge', q.R
{
    private static a.'<init>'[] '';
    abstract void <init>(int,'a-b'[][]) throws E, <clinit>;
}
";

// An interface with two names behind `extends`.
const INTERFACE: &[u8] = b"interface I extends J, K
{
}
";

// A method with each kind of statement, operand and right side.
const KINDS: &[u8] = b"class C extends java.lang.Object
{
    static void m()
    {
        int i0;
        java.lang.Object $r1;
        E 'goto';
        $r1 := @this: C;
        i0 := @parameter254: int;
        'goto' := @caughtexception;
    label1:
        if i0 == 0 goto label2;
        if i0 != 0 goto label2;
        if i0 < 0 goto label2;
        if i0 <= 0 goto label2;
        if i0 > 0 goto label2;
        if i0 >= 0 goto label2;
        lookupswitch(i0) {
            case 1: goto label3;
            case -2: goto label1;
            default: goto label2;
        };
        tableswitch(i0) {
            default: goto label3;
        };
        i0 = (int) i0;
    label2:
        i0 = $r1 instanceof java.lang.Object[];
        i0 = $r1.<'<init>': int f>;
    label3:
        i0 = <C: int 'annotation'>;
        i0 = $r1[i0];
        $r1.<C: int f> = i0;
        <C: int f> = i0;
        $r1[i0] = i0;
        $r1 = newarray (int[])[i0];
        $r1 = newmultiarray (int)[i0][i0][][];
        $r1 = new 'new';
        i0 = lengthof $r1;
        i0 = neg i0;
        $r1 = class \"LA;\";
        i0 = i0 + i0;
        i0 = i0 - i0;
        i0 = i0 * i0;
        i0 = i0 / i0;
        i0 = i0 % i0;
        i0 = i0 & i0;
        i0 = i0 | i0;
        i0 = i0 ^ i0;
        i0 = i0 << i0;
        i0 = i0 >> i0;
        i0 = i0 >>> i0;
        i0 = i0 cmp i0;
        i0 = i0 cmpg i0;
        i0 = i0 cmpl i0;
        i0 = virtualinvoke $r1.<'<init>': int <init>(int,<init>)>(i0, \"x\");
        interfaceinvoke $r1.<C: void 'int'()>();
        specialinvoke $r1.<C: void 'int'()>();
        staticinvoke <C: void m()>();
        goto label2;
        nop;
        entermonitor $r1;
        exitmonitor $r1;
        throw $r1;
        return i0;
        return;
    label4:
        catch E from label1 to label4 with label3;
        catch 'catch'.E from label2 to label3 with label3;
    }
}
";

/// Texts, each with its canonical text.
static CANONICAL: [(&[u8], &[u8]); 6] = [
    (TEXT, WRITTEN),
    (WRITTEN, WRITTEN),
    (SMALLEST, SMALLEST),
    (HEADINGS, HEADINGS),
    (INTERFACE, INTERFACE),
    (KINDS, KINDS),
];

/// Names in which all segments are quoted, each with its canonical text.
static NAMES: [(&[u8], &[u8]); 13] = [
    (b"'annotation'", b"'annotation'"),
    (b"'annotations'", b"annotations"),
    (b"''", b"''"),
    (b"'1a'", b"'1a'"),
    (b"'a1'", b"a1"),
    (b"'#a'", b"'#a'"),
    (b"'a#'", b"a#"),
    (b"'a'.''.'b'", b"a.''.b"),
    (b"'a-b'.'c'", b"'a-b'.c"),
    (b"'to'.'do'", b"'to'.do"),
    (b"'<init>'", b"<init>"),
    (b"'a'.'<init>'", b"a.'<init>'"),
    (b"'\xc3\xa9$_\\'", b"\xc3\xa9$_\\"),
];

/// A name stands behind this in a text of one class.
const HEAD: &[u8] = b"class A implements ";

const FOOT: &[u8] = b"
{
}
";

// The text has one class, which is written so.
fn is_written(alloc: Global, text: &[u8], written: &[u8]) -> Result<bool, AllocError> {
    if text.len() >= 4_294_967_296 {
        return Ok(false);
    }
    let Ok(texts) = rewrite(alloc, text, 0) else {
        return Ok(false);
    };
    match texts.as_slice() {
        [one] => Ok(one.as_slice() == written),
        _ => Ok(false),
    }
}

#[test]
fn classes_are_written(rt: HostRuntime) -> Result<(), Fail> {
    for (text, written) in &CANONICAL {
        assert!(rt; is_written(rt.alloc(), text, written)?, "{written:?}");
    }
    Ok(())
}

#[test]
fn segments_alone_are_quoted(rt: HostRuntime) -> Result<(), Fail> {
    let alloc = rt.alloc();
    for (name, want) in &NAMES {
        let text = repeated(alloc, HEAD, name, 1, FOOT)?;
        let written = repeated(alloc, HEAD, want, 1, FOOT)?;
        assert!(rt;
            is_written(alloc, text.as_slice(), written.as_slice())?,
            "{want:?}"
        );
    }
    Ok(())
}

// The classes of the text, and those of what is written of each.
fn is_read_again(alloc: Global, text: &[u8]) -> Result<bool, AllocError> {
    if text.len() >= 4_294_967_296 {
        return Ok(false);
    }
    let (Ok(classes), Ok(texts)) = (read_classes(alloc, text, 0), rewrite(alloc, text, 0)) else {
        return Ok(false);
    };
    let [written] = texts.as_slice() else {
        return Ok(false);
    };
    let written = written.as_slice();
    if written.len() >= 4_294_967_296 {
        return Ok(false);
    }
    match read_classes(alloc, written, 0) {
        Ok(again) => Ok(again.as_slice() == classes.as_slice()),
        Err(_) => Ok(false),
    }
}

#[test]
fn classes_are_read_again(rt: HostRuntime) -> Result<(), Fail> {
    for text in [TEXT, RECURSION, HANDLER, ACTIVITY, SERVICE] {
        assert!(rt; is_read_again(rt.alloc(), text)?);
    }
    Ok(())
}
