//! The rows of the grammar.

/// The name of a row, with the text that it stands for. Several rows share a name, as the infix operators of all levels do.
#[derive(Clone, Copy, Debug, PartialEq, Eq)]
pub enum RowName {
    /// i i i: a whole text
    Program,
    /// let b and b
    Let,
    /// type d and d
    TypeRow,
    /// exception c
    Exception,
    /// module M = m
    Module,
    /// module type S = y
    Modtype,
    /// open M
    Open,
    /// include M
    Include,
    /// ;;
    Break,
    /// val x : t
    Val,
    /// module M : y, in a signature
    Gmodule,
    /// h = r
    Decl,
    /// 'a t
    Head,
    /// a type, as a declaration's right side
    Alias,
    /// A | B of t
    Variant,
    /// { l : t; m : t }
    Record,
    /// A of t
    Con,
    /// l : t, mutable l : t
    LabelRow,
    /// type h = t
    WithRow,
    /// 'a
    Tvar,
    /// t, M.t
    Tcon,
    /// ( t ), ( t, t )
    Tparen,
    /// t list
    Tapp,
    /// t * t
    Ttuple,
    /// t -> t
    Tarrow,
    /// x
    Pname,
    /// _
    Pany,
    /// 1, "a", true
    Pconst,
    /// - 1
    Pneg,
    /// A, M.A
    Pcon,
    /// ( p ), ( p : t )
    Pparen,
    /// [ p; p ]
    Plist,
    /// { l = p; _ }
    Precord,
    /// A p
    Papp,
    /// p :: p
    Pcons,
    /// p, p
    Ptuple,
    /// p | p
    Por,
    /// p as x
    Pas,
    /// l = p
    Qfield,
    /// p = e, f p p : t = e
    Binding,
    /// p when e -> e
    Case,
    /// l = e
    Ffield,
    /// x
    Name,
    /// A
    Econ,
    /// M.x, M.A
    Epath,
    /// 1, "a", true
    Econst,
    /// _
    Hole,
    /// ( e ), ( e : t )
    Eparen,
    /// begin e end
    Ebegin,
    /// [ e; e ]
    Elist,
    /// { l = e }, { e with l = e }
    Erecord,
    /// ! e
    Prefix,
    /// e . l
    Field,
    /// e e e: the head and its arguments
    Eapp,
    /// assert e
    Eassert,
    /// while e do e done
    Ewhile,
    /// for x = e to e do e done
    Efor,
    /// - e
    Eneg,
    /// e + e
    Infix,
    /// e :: e
    Econs,
    /// e, e
    Etuple,
    /// e . l <- e
    Eset,
    /// if e then e else e
    Eif,
    /// e; e
    Eseq,
    /// let b in e
    Elet,
    /// match e with c | c
    Ematch,
    /// try e with c | c
    Etry,
    /// fun p p -> e
    Efun,
    /// function c | c
    Efunction,
    /// M, M.N
    Mpath,
    /// struct i end
    Mstruct,
    /// ( m ), ( m : y )
    Mparen,
    /// m ( m )
    Mapp,
    /// functor (X : y) -> m
    Mfunctor,
    /// S, M.S
    Ypath,
    /// sig g end
    Ysig,
    /// ( y )
    Yparen,
    /// y with w and w
    Ywith,
    /// functor (X : y) -> y
    Yfunctor,
}
