//! Texts and what they read as, worked out by hand from the grammar.
//!
//! The tables are texts, which are read when the tests run: a line is a case, `TEXT :: NOTATION`. The
//! text is read as a statement or else as an expression; `none` is neither, and ` ..` stands where
//! tokens are left.

use crate::reading::read;
use std::test::Fail;

// How far the root of each text lies below a unit: it stands in the block of a function.
const DEPTH: u32 = 3;

// Each level of operators beside the one that binds less, and how operators of one level group.
const OPERATORS: &str = "\
a?b:c??d; :: (? a b (?? c d));
a??b?c:d; :: (? (?? a b) c d);
a?b:c?d:e; :: (? a b (? c d e));
a?b?c:d:e; :: (? a (? b c d) e);
a??b||c; :: (?? a (|| b c));
a||b??c; :: (?? (|| a b) c);
a??b??c; :: (?? (?? a b) c);
a||b&&c; :: (|| a (&& b c));
a&&b||c; :: (|| (&& a b) c);
a||b||c&&d&&e; :: (|| (|| a b) (&& (&& c d) e));
a&&b==c; :: (&& a (== b c));
a!=b&&c; :: (&& (!= a b) c);
a==b==c; :: (== a b) ..
a==b<c; :: (== a (< b c));
a<b==c; :: (== (< a b) c);
a<=b|c; :: (<= a (| b c));
a|b>=c; :: (>= (| a b) c);
a> =b; :: a ..
a<b<c; :: (< a b) ..
a is T==b; :: (== (is a T) b);
a as T is U; :: (as a T) ..
a|b^c; :: (| a (^ b c));
a^b|c; :: (| (^ a b) c);
a^b&c; :: (^ a (& b c));
a&b^c; :: (^ (& a b) c);
a&b<<c; :: (& a (<< b c));
a>>b&c; :: (& (>> a b) c);
a>>b<<c; :: (<< (>> a b) c);
a> >b; :: a ..
a<<b+c; :: (<< a (+ b c));
a-b>>c; :: (>> (- a b) c);
a-b-c; :: (- (- a b) c);
a-b+c*d; :: (+ (- a b) (* c d));
a*b-c; :: (- (* a b) c);
a~/b%c/d; :: (/ (% (~/ a b) c) d);
a*-b; :: (* a (- b));
-a*b; :: (* (- a) b);
~-!a; :: (~ (- (! a)));
-a.b; :: (- (. a b));
- -a++; :: (- (- (a ++)));
++a--; :: (++ (a --));
a++ ++; :: (a ++) ..
!a!; :: (! (check a));
a=b=c; :: (= a (= b c));
a*=b/=c~/=d%=e+=f-=g; :: (*= a (/= b (~/= c (%= d (+= e (-= f g))))));
a<<=b>>=c&=d^=e|=f??=g; :: (<<= a (>>= b (&= c (^= d (|= e (??= f g))))));
-a=b; :: (= (- a) b);
a+b=c; :: (+ a b) ..
a?b:c=d; :: (? a b (= c d));
a=b?c:d; :: (= a (? b c d));
throw a=b; :: (throw (= a b));
a??throw b; :: a ..
a=b..c; :: (= a (.. b .c));
a?b:c..d; :: (? a b (.. c .d));
throw a..b; :: (throw (.. a .b));";

// Operands, their selectors and sections, and what a test of a type leaves to a conditional.
const OPERANDS: &str = "\
[1,0x1F,true,false,null,this,super,a,]; :: (list 1 0x1F true false null this super a);
[,]; :: none
<int>[]; :: (list <int>);
<int>(a); :: none
({}); :: (parenthesis (map));
a={b,c:d,{}}; :: (= a (map b (: c d) (map)));
<A,List<B>>{}; :: (map <A List<B>>);
'a''''b''' \"c\"r'$d'; :: 'a'+'''b'''+\"c\"+r'$d';
'a$b.c${d.e}$this'; :: (string 'a b .c (. d e) this ');
\"${'${a}'}\"; :: (string \" (string ' a ') \");
'${{a}}'; :: (string ' (map a) ');
'${a b}'; :: none
new A(); :: (new A);
new A.b(c); :: (new A.b c);
new a.B<C>.d(e,f:g,); :: (new a.B<C> .d e f:g);
new A?(); :: (new A?);
new A; :: none
f(a,b:c,); :: (call f a b:c);
f(a,,b); :: f ..
f((a){b;},()=>c); :: (call f (closure (a) {b;}) (closure => c));
a<b>(c); :: (call a<b> c);
a<b>.c; :: (. a<b> c);
a<b>; :: (< a b) ..
a.b<c>(d); :: (call (. a b) <c> d);
a.b<c>d; :: (var a.b<c> d)
a<<b>>(c); :: (>> (<< a b) (parenthesis c));
a<b?c>(d):e; :: (? (< a b) (> c (parenthesis d)) e);
a<b.c?,d<e,void>>(f); :: (call a<b.c? d<e void>> f);
a<T Function<X extends Y>(Z)?>(b); :: (call a<(function T <X Y> (Z)?)> b);
a<Function(1)>(b); :: none
f(a<b.c.d,e>(g)); :: (call f (< a (. (. b c) d)) (> e (parenthesis g)));
f(a<b(c),d>(e)); :: (call f (< a (call b c)) (> d (parenthesis e)));
f(a<b c>(d)); :: f ..
a.b<c; :: (< (. a b) c);
a<b>>c; :: (< a (>> b c));
f(a<b,c); :: (call f (< a b) c);
f(a<b,c>d); :: (call f (< a b) (> c d));
f(a<b,c>(d)); :: (call f (call a<b c> d));
f(a<b,c>(d)=>e); :: f ..
f(a.b<c,d>(e)); :: (call f (call (. a b) <c d> e));
f(a.b<c,d>(e)=>g); :: (call f (< (. a b) c) (> d (closure (e) => g)));
f(-a<b,c>(d)); :: (call f (- (call a<b c> d)));
f((a++)<b,c>(d)); :: (call f (call (parenthesis (a ++)) <b c> d));
f(a++<b,c>(d)); :: (call f (< (a ++) b) (> c (parenthesis d)));
f(-a++<b,c>(d)); :: (call f (< (- (a ++)) b) (> c (parenthesis d)));
f(a+b--<c,d>(e)); :: (call f (< (+ a (b --)) c) (> d (parenthesis e)));
f(a--+b<c,d>(e)); :: (call f (+ (a --) (call b<c d> e)));
[a++<b,c>(d)]; :: (list (< (a ++) b) (> c (parenthesis d)));
a++<b>(c); :: (< (a ++) b) ..
a?.b?[c]!.d(e)[f]--; :: (([] (call (. (check (?[] (?. a b) c)) d) e) f) --);
a?[b]:c; :: (?[] a b) ..
a? [b]:c; :: (? a (list b) c);
a..b..c=d??e..[f]..g(h).i+=j; :: (.. (.. (.. (.. a .b) (= .c (?? d e))) ([] f)) (+= (. (call .g h) i) j));
a..b=c?d:e..f; :: (.. a (= .b (? c d (.. e .f))));
a?..b..[c][d]!; :: (.. (?.. a .b) (check ([] ([] c) d)));
a..b=c=d; :: (.. a (= .b c)) ..
a..b=(c..d)..e; :: (.. (.. a (= .b (parenthesis (.. c .d)))) .e);
a..b<c>(d); :: (.. a (call .b <c> d));
a.. (b); :: a ..
a?b:c..d..e; :: (? a b (.. (.. c .d) .e));
x is T?a:b; :: (? (is x T) a b);
x is T?; :: (is x T?);
x is! List<T?>?; :: (is! x List<T?>?);
x is T? ?a:b; :: (? (is x T?) a b);
x is T?-a:b; :: (? (is x T) (- a) b);
x is void Function()?a:b; :: (? (is x (function void ())) a b);
x is T?Function()?; :: (is x (function T? ()?));
x as T??y; :: (?? (as x T) y);
x as a.T<U,void>; :: (as x a.T<U void>);
(a); :: (parenthesis a);
(a).b; :: (. (parenthesis a) b);
(); :: none
(a,b); :: none
(a)=>b; :: (closure (a) => b);
(a)(b); :: (call (parenthesis a) b);
(a)(b){c;}; :: (call (parenthesis a) b) ..
(a.b)=>c; :: none
()=>a..b=c; :: (closure => (.. a (= .b c)));
()=>a=b; :: (closure => (= a b));
()=>()=>a,b; :: (closure => (closure => a)) ..
()=>a==b==c; :: (closure => (== a b)) ..
()=>a<b<c; :: (closure => (< a b)) ..
()=>a++.b; :: (closure => (a ++)) ..
()=>a?b; :: (closure => a) ..
()=>a?b:c..d; :: (closure => (? a b (.. c .d)));
-()=>a++.b; :: (- (closure => (a ++))) ..
a+()=>b++.c; :: (+ a (closure => (b ++))) ..
a..b=()=>c++..d; :: (.. a (= .b (closure => (.. (c ++) .d))));
a..b=()=>c==d==e; :: (.. a (= .b (closure => (== c d)))) ..
a?b:c..[d e]; :: (? a b c) ..
(){a;}==b==c; :: (== (closure {a;}) b) ..
f(()=>a==b==c); :: f ..
(){}(); :: (call (closure {}));
(a){b;}.c; :: (. (closure (a) {b;}) c);
a-(){b;}-(){c;}; :: (- (- a (closure {b;})) (closure {c;}));
(){return;}; :: (closure {(return)});
({})=>a; :: (closure => a);
(,)=>a; :: none
(a,)=>b; :: (closure (a) => b);
(a[b=1,])=>c; :: (closure (a) [b = 1] => c);
(a,{required T? b,final c=d})=>e; :: (closure (a) {required b T?} {final c = d} => e);
(@o final T a,this.b,var c,required)=>d; :: (closure (@o final a T) (this.b) (c) (required) => d);
(int Function(int)a)=>b; :: (closure (a (function int (int))) => b);
1.5; :: none
#a; :: none
late; :: late;";

// Statements, and the types that declarations are written with.
const STATEMENTS: &str = "\
; :: ;
{}; :: (block {}) ..
{a:b;} :: (block {(label a b;)})
{a:1} :: (block {(error)})
{'a':1}; :: (block {(error)}) ..
var a=1,b; :: (var a=1 b)
final a; :: (final a)
final int? a=b; :: (final int? a=b)
a b,c; :: (var a b c)
a.b c; :: (var a.b c)
a<b>c=d; :: (var a<b> c=d)
a<b<c>>d; :: (var a<b<c>> d)
a?b; :: (var a? b)
a?b=c; :: (var a? b=c)
a?b:c; :: (? a b c);
a?b=c:d; :: (? a (= b c) d);
a b c; :: a ..
dynamic a; :: (var dynamic a)
await a; :: await ..
late int a; :: late ..
Function a; :: (var Function a)
Function()a; :: (var (function ()) a)
Function(){} :: (function Function {})
void Function([int])a; :: (var (function void () [int]) a)
T Function<X extends Y>(X,int a,{required U b})?c; :: (var (function T <X Y> (X, int a) {required b U}?) c)
A Function()Function(B)?a; :: (var (function (function A ()) (B)?) a)
f(){} :: (function f {})
f(){}; :: (function f {}) ..
f(); :: (call f);
f()=>a; :: (function f => a)
f()=>a :: (call f) ..
f(a.b){c;} :: (call f (. a b)) ..
void f(int a,[b]){return;} :: (function void f (a int) [b] {(return)})
T?f<X,Y extends Z>(X a)=>a; :: (function T? f <X> <Y Z> (a X) => a)
f<T>(a){b;} :: (function f <T> (a) {b;})
get a=>b; :: get ..
T get(){} :: (function T get {})
void f()async{} :: none
if(a)if(b);else; :: (if a (if b ; else ;))
if(a)if(b);else@; :: (if a (if b ;)) ..
if(a)while(b)if(c);else; :: (if a (while b (if c ; else ;)))
if(a)if(b)c;else d;else e; :: (if a (if b c; else d;) else e;)
if(a){if(b);}else; :: (if a (block {(if b ;)}) else ;)
if(a)b;else if(c)d;else e; :: (if a b; else (if c d; else e;))
if(a)T b;else f(){} :: (if a (var T b) else (function f {}))
if a; :: none
else; :: none
while(a)do b();while(c); :: (while a (do (call b); c))
do{}while(a) :: none
for(;;){} :: (for ; ; (block {}))
for(var a=0,b;a<b;a++,b--)c; :: (for (var a=0 b) ; (< a b) ; (a ++) (b --) c;)
for(;;a++<b,c>(d)); :: (for ; ; (< (a ++) b) (> c (parenthesis d)) ;)
for(;;a<b,c>(d)); :: (for ; ; (call a<b c> d) ;)
for(a=b;;); :: (for (= a b) ; ; ;)
for(T?a;;); :: (for (var T? a) ; ; ;)
for(a?b:c;;); :: (for (? a b c) ; ; ;)
for(;;a,); :: none
for(a in b); :: (for a in b ;)
for(var a in b)c; :: (for var a in b c;)
for(final a in b..c){} :: (for final a in (.. b .c) (block {}))
for(final T?a in b); :: (for final T? a in b ;)
for(T<U>a in b); :: (for var T<U> a in b ;)
switch(a){} :: (switch a)
switch(a){case 1:case b?c:d:e;break;default:} :: (switch a (case 1 (? b c d) {e; (break)}) (case default {}))
switch(a){case 1:default:b;} :: (switch a (case 1 default {b;}))
switch(a){default:case 1:} :: none
switch(a){b;case 1:} :: none
switch(a){l:case 1:} :: none
try{a;}on A{}on B catch(c){d;}catch(e,f){}finally{g;} :: (try {a;} (catch on A {}) (catch on B c {d;}) (catch e f {}) finally {g;})
try{}finally{} :: (try {} finally {})
try{} :: none
try{}catch(a,b,c){} :: none
return; :: (return)
return a..b; :: (return (.. a .b))
break; :: (break)
break a; :: (break a)
continue; :: (continue)
continue a; :: (continue a)
rethrow; :: (rethrow)
rethrow a; :: none
a:b:while(c)continue a; :: (label a (label b (while c (continue a))))
a:T b; :: (label a (var T b))
a:{} :: (label a (block {}))
assert(a); :: none
const a=1; :: none
@a b; :: none
a];b; :: a; ..";

// What derives nothing, in lists of statements: an error node each.
const ERRORS: &str = "\
{else;a;} :: (block {(error) a;})
{a b c;d;} :: (block {(error) d;})
{@} :: (block {(error)})
{if(a)}b; :: (block {(error)}) ..
{a;@b{c;}d;} :: (block {a; (error) d;})
{(a;)b;c;} :: (block {(error) c;})
{'${a b}';c;} :: (block {(error) c;})
{a-(){b;}-(){else;}c;} :: (block {(error) (error) c;})
{a-(){b;}-(){c;}@;d;} :: (block {(error) (error) (error) d;})
{a-(){b;}-(){c;}@;-(){d;}&&e;} :: (block {(error) (error) (error) (&& (- (closure {d;})) e);})
{(){a;}-(){b;}||(){c;}(){d;};} :: (block {(error) (error) (error) (closure {d;});})
{(){a;}(b){c;}-d;} :: (block {(error) (- (closure (b) {c;}) d);})
{(){a;}-(){b;}?c:d@;-(){e;}?f:g;} :: (block {(error) (error) (error) (? (- (closure {e;})) f g);})
{a..b=(){c;}-(){d;}..e@;-(){f;}..g;} :: (block {(error) (error) (error) (.. (- (closure {f;})) .g);})
{(){a;}[b]-(){c;}@;[d];} :: (block {(error) (error) (error) (list d);})
{{@;}a;} :: (block {(block {(error)}) a;})
{(){else;};} :: (block {(closure {(error)});})
(){@;}+a; :: (+ (closure {(error)}) a);
f(){@;a;} :: (function f {(error) a;})
while(a){@}b; :: (while a (block {(error)})) ..
if(a){else}else b; :: (if a (block {(error)}) else b;)
switch(a){case 1:else case 2:b;} :: (switch a (case 1 {(error)}) (case 2 {b;}))
switch(a){case 1:{case 2:}default:} :: (switch a (case 1 {(block {(error)})}) (case default {}))
try{@;}catch(a){a b c}finally{else} :: (try {(error)} (catch a {(error)}) finally {(error)})
a={b;}; :: a ..
{a={b;};c;} :: (block {(error) ; c;})
{a; :: (block {a;})
{a :: (block {(error)})
f(a; :: f ..";

#[test]
fn texts_read_as_their_lines_say(rt: HostRuntime) -> Result<(), Fail> {
    for table in [OPERATORS, OPERANDS, STATEMENTS, ERRORS] {
        for line in table.lines() {
            let (text, notation) = line.split_once(" :: ").ok_or("no notation")?;
            let found = read(rt.alloc(), text, DEPTH)?;
            assert_eq!(rt; found.as_str(), notation, "{text}");
        }
    }
    Ok(())
}
